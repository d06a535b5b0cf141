// Roots with ample memory: how deep frames may stand, values in the slots of frames, and entries counted through.
use crate::stop::Stop;
use cb_frames::{RootSizes, Roots};
use cb_plain::{ClassState, Table, Value};
use cb_rows::{Trouble, number_of};
use std::alloc::{AllocError, Global};
use std::str::SplitWhitespace;

/// Makes the calls of a row on roots, and tells their answers. Before a colon stand how many frames there may be, static fields, constants, kinds
/// and classes.
pub(crate) fn tell(alloc: Global, told: &mut String, row: &str) -> Result<(), Trouble> {
    let (sizes, calls) = row.split_once(": ").ok_or(Trouble::NotUnderstood)?;
    let mut roots = Roots::make(alloc, read_sizes(sizes)?)?;
    for call in calls.split(", ") {
        make_call(told, &mut roots, call)?;
    }
    Ok(())
}

/// The next number of a row.
fn next_number(words: &mut SplitWhitespace<'_>) -> Result<u32, Trouble> {
    number_of(words.next().ok_or(Trouble::NotUnderstood)?)
}

fn read_sizes(row: &str) -> Result<RootSizes, Trouble> {
    let mut words = row.split_whitespace();
    Ok(RootSizes {
        frames: next_number(&mut words)?,
        statics: next_number(&mut words)?,
        constants: next_number(&mut words)?,
        kinds: next_number(&mut words)?,
        classes: next_number(&mut words)?,
    })
}

/// Makes a call, and tells its answer. A frame is entered without arguments.
fn make_call(told: &mut String, roots: &mut Roots, call: &str) -> Result<(), Trouble> {
    let mut words = call.split_whitespace();
    match words.next() {
        Some("top") => writeln!(told, "{:?}", roots.top())?,
        Some("count") => writeln!(told, "{}", roots.reference_count())?,
        Some("room") => writeln!(told, "{}", roots.has_room(next_number(&mut words)?))?,
        Some("init") => writeln!(told, "{:?}", roots.enter_init(next_number(&mut words)?))?,
        Some("enter") => {
            let method = next_number(&mut words)?;
            let locals = next_number(&mut words)?;
            let entered = roots.enter(method, 0, locals, next_number(&mut words)?);
            writeln!(told, "{entered:?}")?;
        }
        _ => return Err(Trouble::NotUnderstood),
    }
    Ok(())
}

/// Arguments go into local variables: tells a value on the stack, the local variables of the frame that takes two of three values, one that is
/// changed, a reference, and what is left on the stack.
pub(crate) fn tell_arguments(alloc: Global, told: &mut String) -> Result<(), Stop> {
    let sizes = RootSizes {
        frames: 2,
        statics: 1,
        constants: 0,
        kinds: 0,
        classes: 0,
    };
    let mut roots = Roots::make(alloc, sizes)?;
    roots.enter(1, 0, 0, 3)?;
    roots.push(Value::Int(5));
    roots.push(Value::Long(6));
    roots.push(Value::Ref(7));
    let below = roots.peek(1);
    roots.enter(2, 2, 4, 1)?;
    let long = (roots.local(0), roots.local(1));
    let others = (roots.local(2), roots.local(3));
    roots.set_local(3, Value::Int(-1));
    let changed = roots.local(3);
    let reference = roots.reference(5);
    roots.leave();
    let left = roots.pop();
    Ok(write!(
        told,
        "{below:?} {long:?} {others:?} {changed:?} {reference} {left:?}"
    )?)
}

/// Entries are counted through and changed: tells static fields, places of a table, states of classes, and all entries that name something, before
/// and after they are changed.
pub(crate) fn tell_fields(alloc: Global, told: &mut String) -> Result<(), Stop> {
    let sizes = RootSizes {
        frames: 1,
        statics: 2,
        constants: 1,
        kinds: 1,
        classes: 2,
    };
    let mut roots = Roots::make(alloc, sizes)?;
    roots.set_static(1, Value::Ref(11));
    let statics = (roots.static_value(0), roots.static_value(1));
    roots.set_table(Table::ClassObjects, 0, 12);
    roots.set_table(Table::Booleans, 1, 13);
    let booleans = (
        roots.table(Table::Booleans, 0),
        roots.table(Table::Booleans, 1),
    );
    roots.set_state(1, ClassState::Busy);
    let states = (roots.state(0), roots.state(1));
    roots.set_pending(14);
    roots.set_argument(15);
    writeln!(told, "{statics:?} {booleans:?} {states:?}")?;
    tell_entries(told, &roots)?;
    change_entries(&mut roots);
    tell_entries(told, &roots)?;
    Ok(write!(told, "{} {}", roots.pending(), roots.argument())?)
}

/// Tells the entries that name something, each with its number.
fn tell_entries(told: &mut String, roots: &Roots) -> Result<(), AllocError> {
    for i in 0..roots.reference_count() {
        let to = roots.reference(i);
        if to > 0 {
            writeln!(told, "{i} {to}")?;
        }
    }
    Ok(())
}

/// Adds 100 to each of them.
fn change_entries(roots: &mut Roots) {
    for i in 0..roots.reference_count() {
        if i < roots.reference_count() && roots.reference(i) > 0 {
            let to = roots.reference(i);
            roots.set_reference(i, to.wrapping_add(100));
        }
    }
}
