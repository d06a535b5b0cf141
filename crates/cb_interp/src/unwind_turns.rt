// Turns of a run in which a pending exception takes a step.
ghost use Rattle.cb_heap.specs.Storage.{view_in};
ghost use Rattle.std.specs.Prelude.{◌≡◌, ◌<◌, false, is_some, length, true, IsTrue};
ghost use Rattle.cb_heap.specs.Kept.{is_kept};
ghost use Rattle.cb_heap.specs.Reading.{serial_of};
ghost use Rattle.cb_machine.specs.Library.{error};
ghost use Rattle.cb_machine.specs.Steps.{plan};
ghost use Rattle.cb_unwind.specs.Initialised.{ClassBelow};
ghost use Rattle.cb_unwind.specs.Unwound.{HasPendingKind, MayCatch, MethodBelow, wraps};
ghost use Rattle.cb_act.specs.Turning.{Outside, TurnMade, machine_of, moment_of, state_of};

use cb_frames::Roots;
use cb_heap::Store;
use cb_link::Program;
use cb_unwind::unwind_step;

/// A turn in which the pending exception takes a step and isn't wrapped: a handler of the topmost method takes it, or the topmost frame ends
/// (JVMS §2.10, §5.5). Takes time in the slots of the frame and the handlers of its method.
pub fn unwind_turn<S: Store>(program: &Program, store: &mut S, roots: &mut Roots)
    ghost outside: { Outside }
    requires steps { is_some (plan (machine_of program.now roots.old.limit) (state_of (view_in (S.storage store.old) roots.old.roots) outside)) ≡ true }
    requires left { wraps program.now (view_in (S.storage store.old) roots.old.roots)
        ≡ false }
    requires there { IsTrue (is_kept (S.storage store.old).kept (serial_of
        (S.storage store.old).index roots.old.roots.pending)) }
    requires kind { HasPendingKind program.now (view_in (S.storage store.old) roots.old.roots) }
    requires error { error < length program.now.kinds }
    requires method { MethodBelow (length program.now.methods) roots.old.roots }
    requires catches { MayCatch program.now roots.old.roots }
    requires class { ClassBelow (length roots.old.roots.classes) roots.old.roots }
    ensures made { TurnMade S.rules (machine_of program.now roots.old.limit) (moment_of (view_in (S.storage store.old) roots.old.roots) outside (S.storage store.old).facts)
        (moment_of (view_in (S.storage store.new) roots.new.roots) outside
        (S.storage store.new).facts) }
    ensures limit { roots.new.limit ≡ roots.old.limit }
    ensures faults { (S.storage store.new).faults ≡ (S.storage store.old).faults }
    ensures settings { (S.storage store.new).settings ≡ (S.storage store.old).settings }
{
    unwind_step(program, store, roots);
}
