// Turns of a run in which a class begins to be initialised.
ghost use Rattle.cb_heap.specs.Storage.{view_in};
ghost use Rattle.std.specs.Prelude.{◌≡◌, ◌<◌, ◌≤◌, length, OnErr, OnOk, Some};
ghost use Rattle.cb_link.specs.Slots.{statics};
ghost use Rattle.cb_machine.specs.Initialising.{begun_upon};
ghost use Rattle.cb_machine.specs.Sites.{stack_overflow};
ghost use Rattle.cb_machine.specs.Steps.{plan};
ghost use Rattle.cb_machine.specs.Throwing.{throws};
ghost use Rattle.cb_unwind.specs.Begun.{NumbersOnly};
ghost use Rattle.cb_act.specs.Turning.{Outside, TurnMade, machine_of, moment_of, state_of};

use cb_frames::{Deep, Roots};
use cb_heap::Store;
use cb_link::Program;
use cb_unwind::begin_init;

/// A turn in which a class begins to be initialised, upon the frames that stand. Where it is `Deep` there is no room for its frame, and a
/// StackOverflowError is thrown in its place; then nothing has changed. Takes time in the static fields of the program.
pub fn begin_turn<S: Store>(
    program: &Program,
    store: &S,
    roots: &mut Roots,
    class: u32,
) -> Result<(), Deep>
    ghost outside: { Outside }
    requires plans { plan (machine_of program.now roots.old.limit) (state_of (view_in (S.storage store.now) roots.old.roots) outside)
        ≡ Some (begun_upon (machine_of program.now roots.old.limit) (state_of (view_in (S.storage store.now) roots.old.roots) outside) (view_in (S.storage store.now) roots.old.roots).roots.frames class) }
    requires class { class < length roots.old.roots.classes }
    requires statics { length (statics program.now.classes) ≤ length roots.old.roots.statics }
    requires numbers { NumbersOnly program.now class }
    ensures made { OnOk result (TurnMade S.rules (machine_of program.now roots.old.limit) (moment_of
        (view_in (S.storage store.now) roots.old.roots) outside (S.storage store.now).facts)
        (moment_of (view_in (S.storage store.now) roots.new.roots) outside
        (S.storage store.now).facts)) }
    ensures deep { OnErr result (plan (machine_of program.now roots.old.limit) (state_of (view_in (S.storage store.now) roots.old.roots) outside)
        ≡ Some (throws (machine_of program.now roots.old.limit) (state_of (view_in (S.storage store.now) roots.old.roots) outside) stack_overflow)) }
    ensures same { OnErr result (roots.new ≡ roots.old) }
    ensures limit { roots.new.limit ≡ roots.old.limit }
{
    begin_init(program, roots, class)
}
