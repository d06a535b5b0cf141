// Roots that refer to objects in each way once.
ghost use Rattle.std.specs.Prelude.{◌≡◌, ◌<◌, [], length, IfOk};
ghost use Rattle.cb_collection_cases.specs.Collected.{HasPlaces};

use cb_frames::{RootSizes, Roots};
use cb_plain::{OutOfMemory, Table, Value};
use cb_rows::Trouble;
use std::alloc::Global;

/// The places of what roots refer to, 0 for none: a local variable, the top of the stack, a static field, a constant, a class object, a box, the pending
/// exception, and the array that waits for `main`.
#[derive(Clone, Copy)]
pub(crate) struct Named {
    pub(crate) local: u64,
    pub(crate) top: u64,
    pub(crate) field: u64,
    pub(crate) constant: u64,
    pub(crate) class: u64,
    pub(crate) boxed: u64,
    pub(crate) pending: u64,
    pub(crate) argument: u64,
}

/// Roots without a frame that refer to nothing.
fn blank_roots(alloc: Global) -> Result<Roots, OutOfMemory>
    ensures { IfOk result (λ roots. HasPlaces roots.roots) }
{
    let sizes = RootSizes {
        frames: 2,
        statics: 1,
        constants: 1,
        kinds: 1,
        classes: 0,
    };
    Roots::make(alloc, sizes)
}

/// Lets a local variable of a frame and the top of its stack refer to objects.
fn enter_frame(roots: &mut Roots, named: Named) -> Result<(), Trouble>
    requires { roots.old.roots.frames ≡ [] }
{
    match roots.enter(0, 0, 1, 1) {
        Ok(()) => {
            roots.set_local(0, Value::Ref(named.local));
            roots.push(Value::Ref(named.top));
            Ok(())
        }
        Err(_) => Err(Trouble::Refused),
    }
}

/// Lets a constant, a class object and a box refer to objects.
fn fill_tables(roots: &mut Roots, named: Named)
    requires { HasPlaces roots.old.roots }
    ensures frames { roots.new.roots.frames ≡ roots.old.roots.frames }
    ensures fields { roots.new.roots.statics ≡ roots.old.roots.statics }
{
    roots.set_table(Table::Constants, 0, named.constant);
    roots.set_table(Table::ClassObjects, 0, named.class);
    roots.set_table(Table::Booleans, 1, named.boxed);
}

/// Lets a static field, the pending exception and the array of arguments be objects.
fn fill_rest(roots: &mut Roots, named: Named)
    requires { 0 < length roots.old.roots.statics }
    ensures { roots.new.roots.frames ≡ roots.old.roots.frames }
{
    roots.set_static(0, Value::Ref(named.field));
    roots.set_pending(named.pending);
    roots.set_argument(named.argument);
}

/// Roots that refer to these.
pub(crate) fn make_roots(alloc: Global, named: Named) -> Result<Roots, Trouble> {
    let mut roots = blank_roots(alloc)?;
    fill_tables(&mut roots, named);
    fill_rest(&mut roots, named);
    match enter_frame(&mut roots, named) {
        Ok(()) => Ok(roots),
        Err(trouble) => {
            drop(roots);
            Err(trouble)
        }
    }
}
