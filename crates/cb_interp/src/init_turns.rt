// Turns of a run in which the initialisation of a class takes a step.
ghost use Rattle.cb_heap.specs.Storage.{view_in};
ghost use Rattle.std.specs.Prelude.{◌≡◌, ◌<◌, ◌≤◌, false, is_ok, is_some, length, true, OnErr, OnOk, Some};
ghost use Rattle.cb_link.specs.Slots.{statics};
ghost use Rattle.cb_machine.specs.Sites.{stack_overflow};
ghost use Rattle.cb_machine.specs.Steps.{plan};
ghost use Rattle.cb_machine.specs.Throwing.{throws};
ghost use Rattle.cb_unwind.specs.Initialised.{ClassBelow, HasFewParents, NumbersNext, by_place, initialised};
ghost use Rattle.cb_interp.specs.Initials.{fails, had_room};
ghost use Rattle.cb_act.specs.Turning.{Outside, TurnMade, machine_of, moment_of, state_of};

use cb_frames::{Deep, Frame, Roots};
use cb_heap::Store;
use cb_link::Program;
use cb_plain::ClassState;
use cb_unwind::{InitStep, init_step};

/// A turn in which the initialisation whose frame is the topmost one takes a step, where it doesn't look at a class whose initialisation
/// failed. Where it is `Deep` there is no room for a frame, and a StackOverflowError is thrown in its place; then nothing has changed. Takes
/// time in the static fields of the program where a class begins to be initialised.
pub fn init_turn<S: Store>(program: &Program, store: &S, roots: &mut Roots) -> Result<(), Deep>
    ghost outside: { Outside }
    requires quiet { roots.old.roots.pending ≡ 0 }
    requires there { is_some (initialised program.now roots.old.limit roots.old.roots) ≡ true }
    requires goes { fails (initialised program.now roots.old.limit roots.old.roots) ≡ false }
    requires class { ClassBelow (length program.now.classes) roots.old.roots }
    requires few { HasFewParents program.now roots.old.roots }
    requires numbers { NumbersNext program.now roots.old.roots }
    requires classes { length program.now.classes ≤ length roots.old.roots.classes }
    requires statics { length (statics program.now.classes) ≤ length roots.old.roots.statics }
    ensures made { OnOk result (TurnMade S.rules (machine_of program.now roots.old.limit) (moment_of
        (view_in (S.storage store.now) roots.old.roots) outside (S.storage store.now).facts)
        (moment_of (view_in (S.storage store.now) roots.new.roots) outside
        (S.storage store.now).facts)) }
    ensures deep { OnErr result (plan (machine_of program.now roots.old.limit) (state_of (view_in (S.storage store.now) roots.old.roots) outside)
        ≡ Some (throws (machine_of program.now roots.old.limit) (state_of (view_in (S.storage store.now) roots.old.roots) outside) stack_overflow)) }
    ensures same { OnErr result (roots.new ≡ roots.old) }
    ensures limit { roots.new.limit ≡ roots.old.limit }
{
    let step = init_step(program, roots);
    room_of(step)
}

/// Whether there was room for what a step did.
fn room_of(step: InitStep) -> Result<(), Deep>
    ensures { is_ok result ≡ had_room step }
{
    match step {
        InitStep::Goes | InitStep::FailedParent => Ok(()),
        InitStep::Deep => Err(Deep),
    }
}

/// Whether the next step of the initialisation whose frame is the topmost one looks at a class whose initialisation failed.
pub fn fails_next(program: &Program, roots: &Roots) -> bool
    requires class { ClassBelow (length program.now.classes) roots.now.roots }
    requires classes { length program.now.classes ≤ length roots.now.roots.classes }
    ensures { result ≡ fails (initialised program.now roots.now.limit roots.now.roots) }
{
    match roots.top() {
        Some(Frame::Initialising { class, place }) => fails_at(program, roots, class, place),
        Some(Frame::Running { method: _, pc: _ }) => false,
        None => false,
    }
}

/// Whether the step of the initialisation of a class at a place does.
fn fails_at(program: &Program, roots: &Roots, class: u32, place: u32) -> bool
    requires class { class < length program.now.classes }
    requires classes { length program.now.classes ≤ length roots.now.roots.classes }
    ensures { result ≡ fails (by_place program.now roots.now.limit roots.now.roots class place) }
{
    let turn = place as usize;
    if turn < program.parent_count(class) {
        let parent = program.parent(class, turn);
        return roots.state(parent) == ClassState::Failed;
    }
    false
}
