// Collections of many objects of one form, which are timed.
ghost use Rattle.std.specs.Prelude.{◌<◌, ◌^◌, IfOk, OnOk};
ghost use Rattle.cb_partheap.specs.Marks.{IsUnmarked};
ghost use Rattle.cb_partheap_tests.specs.Tried.{AllKept};

use crate::collecting::collect;
use crate::rooted::{Named, make_roots};
use cb_dag::Grid;
use cb_partheap_tests::{Tried, link, make_heap, next_number};
use cb_plain::{Request, Set};
use cb_rows::Trouble;
use std::alloc::Global;

// How many objects of a form there may be, and how many references an array of the form `arrays` has.
const MOST: u32 = 1 << 20;

const WIDE: u32 = 1000;

/// How objects refer to one another.
#[derive(Clone, Copy)]
enum Form {
    /// Each to the next one.
    List,
    /// Each to two others.
    Tree,
    /// An array to arrays, and these to the objects.
    Arrays,
}

/// So many objects of a form, and whether each has one behind it that goes.
#[derive(Clone, Copy)]
struct Forest {
    form: Form,
    count: u32,
    gaps: bool,
}

/// The form of a name.
fn form_of(name: &str) -> Result<Form, Trouble> {
    match name {
        "list" => Ok(Form::List),
        "tree" => Ok(Form::Tree),
        "arrays" => Ok(Form::Arrays),
        _ => Err(Trouble::NotUnderstood),
    }
}

/// Grants room for so many words at the one site of a heap.
fn grant_all(tried: &mut Tried, words: u64) -> Result<(), Trouble>
    requires kept { AllKept tried.old.heap tried.old.places.items }
    requires unmarked { IsUnmarked tried.old.heap }
    ensures kept { OnOk result (AllKept tried.new.heap tried.new.places.items) }
    ensures unmarked { OnOk result (IsUnmarked tried.new.heap) }
{
    if tried.heap.site_parts.len() == 0 {
        return Err(Trouble::Refused);
    }
    let mut request = Request::new();
    request.add(0, words);
    match tried.grant(&request) {
        Ok(()) => Ok(()),
        Err(_) => Err(Trouble::Refused),
    }
}

/// A heap of one site for so many words.
fn heap_for(alloc: Global, words: u64) -> Result<Tried, Trouble>
    ensures kept { IfOk result (λ tried. AllKept tried.heap tried.places.items) }
    ensures unmarked { IfOk result (λ tried. IsUnmarked tried.heap) }
{
    let blocks = words / 256 + 1;
    if blocks > MOST.into() {
        return Err(Trouble::NotUnderstood);
    }
    let grid = Grid::make(alloc, 1)?;
    let made = make_heap(alloc, &grid, blocks as u32);
    drop(grid);
    made
}

/// Places an object, and one behind it where there are gaps. Gives the serial of the first.
fn place(tried: &mut Tried, kind: u32, size: u32, gaps: bool) -> Result<usize, Trouble>
    requires kept { AllKept tried.old.heap tried.old.places.items }
    requires unmarked { IsUnmarked tried.old.heap }
    ensures kept { OnOk result (AllKept tried.new.heap tried.new.places.items) }
    ensures unmarked { OnOk result (IsUnmarked tried.new.heap) }
{
    let _serial = tried.place(0, kind, size)?;
    let serial = tried.places.len();
    if gaps {
        let _behind = tried.place(0, kind, size)?;
    }
    Ok(serial)
}

/// Lets a word of an object refer to another.
fn join(tried: &mut Tried, serial: usize, i: u32, to: usize) -> Result<(), Trouble>
    requires kept { AllKept tried.old.heap tried.old.places.items }
    requires unmarked { IsUnmarked tried.old.heap }
    ensures kept { OnOk result (AllKept tried.new.heap tried.new.places.items) }
    ensures unmarked { OnOk result (IsUnmarked tried.new.heap) }
{
    if serial == 0 || serial > tried.places.len() {
        return Err(Trouble::NotUnderstood);
    }
    let at = tried.places[serial - 1];
    let _done = link(tried, at, i, to);
    Ok(())
}

/// The number of the object that refers to one of a list or a tree, counted from 1, and the word in which it does.
fn parent_of(form: Form, number: u32) -> (u32, u32) {
    match form {
        Form::Tree => (number / 2, number % 2),
        _ => (number.saturating_sub(1), 0),
    }
}

/// The serial of an object of a list or a tree.
fn serial_of(number: u32, gaps: bool) -> usize {
    let number = number as usize;
    if gaps {
        (2 * number).saturating_sub(1)
    } else {
        number
    }
}

/// Places the objects of a list or a tree.
fn plant(tried: &mut Tried, forest: Forest) -> Result<(), Trouble>
    requires kept { AllKept tried.old.heap tried.old.places.items }
    requires unmarked { IsUnmarked tried.old.heap }
    ensures kept { OnOk result (AllKept tried.new.heap tried.new.places.items) }
    ensures unmarked { OnOk result (IsUnmarked tried.new.heap) }
{
    let kind = match forest.form {
        Form::Tree => 3,
        _ => 0,
    };
    for before in 0..forest.count {
        let number = before.saturating_add(1);
        let serial = place(tried, kind, 2, forest.gaps)?;
        if before > 0 {
            let (parent, word) = parent_of(forest.form, number);
            join(tried, serial_of(parent, forest.gaps), word, serial)?;
        }
    }
    Ok(())
}

/// Places an array to which another refers, and so many objects to which it refers.
fn plant_array(tried: &mut Tried, word: u32, forest: Forest) -> Result<(), Trouble>
    requires kept { AllKept tried.old.heap tried.old.places.items }
    requires unmarked { IsUnmarked tried.old.heap }
    ensures kept { OnOk result (AllKept tried.new.heap tried.new.places.items) }
    ensures unmarked { OnOk result (IsUnmarked tried.new.heap) }
{
    let array = place(tried, 2, WIDE, false)?;
    join(tried, 1, word, array)?;
    for i in 0..WIDE {
        let serial = place(tried, 1, 2, forest.gaps)?;
        join(tried, array, i, serial)?;
    }
    Ok(())
}

/// Places an array of arrays of objects.
fn plant_arrays(tried: &mut Tried, forest: Forest) -> Result<(), Trouble>
    requires kept { AllKept tried.old.heap tried.old.places.items }
    requires unmarked { IsUnmarked tried.old.heap }
    ensures kept { OnOk result (AllKept tried.new.heap tried.new.places.items) }
    ensures unmarked { OnOk result (IsUnmarked tried.new.heap) }
{
    let arrays = forest.count / WIDE;
    place(tried, 2, arrays, false)?;
    for word in 0..arrays {
        plant_array(tried, word, forest)?;
    }
    Ok(())
}

/// How many words a forest may take, which is some more than it does.
fn words_for(forest: Forest) -> u64
    ensures { result < 2 ^ 40 }
{
    let all = if forest.gaps { 10 } else { 5 };
    let references = match forest.form {
        Form::Arrays => 2,
        _ => 0,
    };
    forest.count as u64 * (all + references) + 100_000
}

/// Places a forest in a heap without objects.
fn plant_forest(tried: &mut Tried, forest: Forest) -> Result<(), Trouble>
    requires kept { AllKept tried.old.heap tried.old.places.items }
    requires unmarked { IsUnmarked tried.old.heap }
    ensures kept { OnOk result (AllKept tried.new.heap tried.new.places.items) }
    ensures unmarked { OnOk result (IsUnmarked tried.new.heap) }
{
    grant_all(tried, words_for(forest))?;
    match forest.form {
        Form::Arrays => plant_arrays(tried, forest),
        _ => plant(tried, forest),
    }
}

/// Marks a set of parts from roots that refer to these and, where that is asked for, slides it.
fn collect_named(
    alloc: Global,
    tried: &mut Tried,
    named: Named,
    set: &Set,
    slides: bool,
) -> Result<(), Trouble>
    requires kept { AllKept tried.old.heap tried.old.places.items }
    requires unmarked { IsUnmarked tried.old.heap }
{
    let mut roots = make_roots(alloc, named)?;
    let done = collect(tried, &mut roots, set, slides);
    drop(roots);
    if done { Ok(()) } else { Err(Trouble::Refused) }
}

/// Marks a heap with one part from its first object and, where that is asked for, slides it.
fn collect_all(alloc: Global, tried: &mut Tried, slides: bool) -> Result<(), Trouble>
    requires kept { AllKept tried.old.heap tried.old.places.items }
    requires unmarked { IsUnmarked tried.old.heap }
{
    let local = match tried.places.get(0) {
        Some(at) => *at,
        None => 0,
    };
    let named = Named {
        local,
        top: 0,
        field: 0,
        constant: 0,
        class: 0,
        boxed: 0,
        pending: 0,
        argument: 0,
    };
    let mut set = Set::make(alloc, tried.heap.parts())?;
    for part in 0..set.parts() {
        set.put(part, true);
    }
    let done = collect_named(alloc, tried, named, &set, slides);
    drop(set);
    done
}

/// Places the forest of a row, does what it says with it, and tells how many words the heap has then.
fn tell_forest(
    alloc: Global,
    tried: &mut Tried,
    forest: Forest,
    deed: &str,
    told: &mut String,
) -> Result<(), Trouble>
    requires kept { AllKept tried.old.heap tried.old.places.items }
    requires unmarked { IsUnmarked tried.old.heap }
{
    plant_forest(tried, forest)?;
    match deed {
        "plant" => {}
        "mark" => collect_all(alloc, tried, false)?,
        "slide" => collect_all(alloc, tried, true)?,
        _ => return Err(Trouble::NotUnderstood),
    }
    if tried.heap.parts() == 0 {
        return Err(Trouble::Refused);
    }
    write!(told, " {}", tried.heap.words.used(0))?;
    Ok(())
}

/// Reads the form of a row's forest, its count and whether there are gaps, and what is done with it. Tells how many words the heap has then.
pub(crate) fn tell(alloc: Global, told: &mut String, row: &str) -> Result<(), Trouble> {
    let mut words = row.split_whitespace();
    let form = form_of(words.next().unwrap_or(""))?;
    let count = next_number::<u32>(&mut words)?;
    let gaps = next_number::<u32>(&mut words)? != 0;
    if count > MOST {
        return Err(Trouble::NotUnderstood);
    }
    let forest = Forest { form, count, gaps };
    let mut tried = heap_for(alloc, words_for(forest))?;
    let deed = words.next().unwrap_or("");
    let done = tell_forest(alloc, &mut tried, forest, deed, told);
    drop(tried);
    done
}
