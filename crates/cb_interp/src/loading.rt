// Turns of a run in which a constant that is an object is loaded (JVMS §6.5, ldc).
ghost use Rattle.cb_heap.specs.Storage.{view_in};
ghost use Rattle.std.specs.Prelude.{◌≡◌, Some};
ghost use Rattle.cb_heap.specs.declared.no_room.NoRoom.TheVariants as rooms;
ghost use Rattle.cb_act.specs.Acting.{Asks, acted};
ghost use Rattle.cb_act.specs.Here.{Here};
ghost use Rattle.cb_interp.specs.Running.{Ready, TurnEnds};
ghost use Rattle.cb_act.specs.Turning.{Outside, machine_of, state_of};
ghost use Rattle.cb_act.specs.declared.need.Need.TheVariants as needs;
ghost use Rattle.cb_interp.specs.declared.stop.Stop.TheVariants as stops;

use crate::Stop;
use crate::class_loads::load_class_need;
use crate::linked::linked_constants;
use crate::load_turns::load_need;
use cb_frames::Roots;
use cb_heap::Store;
use cb_link::{Decoded, Named, Program};
use cb_plain::Request;

/// The constant at which the topmost frame stands is loaded: a string, or the object of a class. It is placed where there is none yet.
pub(crate) fn loads_need<S: Store>(
    program: &Program,
    store: &mut S,
    roots: &mut Roots,
    request: &mut Request,
    decoded: &Decoded,
) -> Result<(), Stop>
    ghost outside: { Outside }
    requires ready { Ready S.rules program.now (S.storage store.old) roots.old outside }
    requires here { Here (machine_of program.now roots.old.limit) (state_of (view_in (S.storage store.old) roots.old.roots) outside) decoded.now }
    requires asked { acted program.now roots.old.limit decoded.now (view_in (S.storage store.old) roots.old.roots) ≡ Some (Asks needs.Loads) }
    ensures { TurnEnds S.rules program.now outside (S.storage store.old) (S.storage store.new) roots.old roots.new result }
{
    linked_constants();
    match decoded.named {
        Named::Text(text) => load_need(program, store, roots, request, decoded, text),
        Named::Kind(kind) => load_class_need(program, store, roots, request, decoded, kind),
        _ => unreachable!(),
    }
}
