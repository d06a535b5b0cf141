// Turns of a run in which the program ends it.
ghost use Rattle.cb_heap.specs.Storage.{view_in};
ghost use Rattle.std.specs.Prelude.{◌≡◌, ◌<◌, ℤ, length, slice_get, true, Some};
ghost use Rattle.cb_act.specs.Effects.{has_sort};
ghost use Rattle.cb_act.specs.Here.{Here};
ghost use Rattle.cb_act.specs.Turning.{Outside, TurnMade, machine_of, moment_of, state_of};
ghost use Rattle.cb_frames.specs.Limited.{with_roots};
ghost use Rattle.cb_frames.specs.Tops.{top_stack};
ghost use Rattle.cb_library.specs.declared.native.Native.TheVariants as natives;
ghost use Rattle.cb_plain.specs.declared.value.Value.TheVariants as values;
ghost use Rattle.cb_shapes.specs.declared.sort.Sort.TheVariants as sorts;
ghost use Rattle.cb_interp.specs.Performed.{AsksNative};
ghost use Rattle.cb_interp.specs.Printing.{behind_taken};
ghost use Rattle.cb_interp.specs.Running.{Ready, exited};

use crate::linked::linked_programs_fit;
use cb_act::{int_at, take_one};
use cb_frames::Roots;
use cb_heap::Store;
use cb_link::{Decoded, Program};
use cb_safety::linked_has_natives;

/// A turn in which `System.exit` is performed, for which the instruction at the topmost frame's place asks (Java SE 8 API, java.lang.System).
/// Its argument is taken from the stack, the place is the next one, and `exit` was called then. Answers the argument. Takes constant time.
pub(crate) fn exit_turn<S: Store>(
    program: &Program,
    store: &S,
    roots: &mut Roots,
    decoded: &Decoded,
) -> i32
    ghost outside: { Outside }
    requires ready { Ready S.rules program.now (S.storage store.now) roots.old outside }
    requires here { Here (machine_of program.now roots.old.limit) (state_of (view_in (S.storage store.now) roots.old.roots) outside) decoded.now }
    requires asked { AsksNative program.now roots.old.limit decoded.now (view_in (S.storage store.now) roots.old.roots) natives.SystemExit }
    ensures status { slice_get (top_stack roots.old.roots) 0 ≡ Some (values.Int result) }
    ensures made { (status : ℤ) → slice_get (top_stack roots.old.roots) 0 ≡ Some (values.Int status)
        → TurnMade S.rules (machine_of program.now roots.old.limit) (moment_of
        (view_in (S.storage store.now) roots.old.roots) outside (S.storage store.now).facts)
        (exited status (moment_of (view_in (S.storage store.now) roots.new.roots)
        outside (S.storage store.now).facts)) }
    ensures limit { roots.new.limit ≡ roots.old.limit }
{
    linked_programs_fit();
    linked_has_natives();
    let _ = store;
    let Some(next) = decoded.next else {
        unreachable!()
    };
    take_status(roots, next)
}

/// Takes the int on top of the stack, and goes on at a place.
fn take_status(roots: &mut Roots, next: u32) -> i32
    requires int { has_sort sorts.Int (slice_get (top_stack roots.old.roots) 0) ≡ true }
    requires there { 0 < length (top_stack roots.old.roots) }
    ensures status { slice_get (top_stack roots.old.roots) 0 ≡ Some (values.Int result) }
    ensures left { roots.new ≡ with_roots roots.old (behind_taken 1 next roots.old.roots) }
{
    let status = int_at(roots, 0);
    take_one(roots);
    roots.set_place(next);
    status
}
