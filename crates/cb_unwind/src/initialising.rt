// Steps of the initialisation of a class.
ghost use Rattle.std.specs.Prelude.{◌≡◌, ◌<◌, ◌≤◌, ◌+◌, ◌^◌, is_some, length, slice_get, true, Some};
ghost use Rattle.cb_frames.specs.Tops.{placed};
ghost use Rattle.cb_link.specs.Calls.{initial_parents, initialiser};
ghost use Rattle.cb_link.specs.Slots.{statics};
ghost use Rattle.cb_unwind.specs.Begun.{NumbersOnly};
ghost use Rattle.cb_unwind.specs.Initialised.{ClassBelow, HasFewParents, IsAt, IsOnTop, NumbersNext, begins, by_place, enters, initialised, own_turn, parent_turn};

use crate::answers::InitStep;
use crate::beginning::begin_init;
use crate::ending::end_init;
use cb_classfile::Body;
use cb_frames::{Deep, Frame, Roots};
use cb_link::Program;
use cb_plain::ClassState;

/// Takes a step of the initialisation whose frame is the topmost one (JVMS §5.5): it looks at the next class that comes before its own and,
/// where that one's initialisation hasn't begun, begins it; or it enters the class's own initialiser; or the class is done, and the frame
/// ends. Where the answer is `Deep` a StackOverflowError is to be thrown, and where it is `FailedParent` a NoClassDefFoundError. Takes time
/// in the static fields of the program where a class begins to be initialised.
pub fn init_step(program: &Program, roots: &mut Roots) -> InitStep
    requires there { is_some (initialised program.now roots.old.limit roots.old.roots) ≡ true }
    requires class { ClassBelow (length program.now.classes) roots.old.roots }
    requires few { HasFewParents program.now roots.old.roots }
    requires numbers { NumbersNext program.now roots.old.roots }
    requires classes { length program.now.classes ≤ length roots.old.roots.classes }
    requires statics { length (statics program.now.classes) ≤ length roots.old.roots.statics }
    ensures behind { initialised program.now roots.old.limit roots.old.roots
        ≡ Some (result, roots.new.roots) }
    ensures limit { roots.new.limit ≡ roots.old.limit }
{
    match roots.top() {
        Some(Frame::Initialising { class, place }) => step_at(program, roots, class, place),
        Some(Frame::Running { method: _, pc: _ }) => InitStep::Goes,
        None => InitStep::Goes,
    }
}

/// Takes the step of the initialisation of a class at a place.
fn step_at(program: &Program, roots: &mut Roots, class: u32, place: u32) -> InitStep
    requires there { is_some (by_place program.now roots.old.limit roots.old.roots class place)
        ≡ true }
    requires top { IsOnTop roots.old.roots class place }
    requires class { class < length program.now.classes }
    requires few { length (initial_parents program.now.classes class) + 1 < 2 ^ 32 }
    requires numbers { NumbersNext program.now roots.old.roots }
    requires classes { length program.now.classes ≤ length roots.old.roots.classes }
    requires statics { length (statics program.now.classes) ≤ length roots.old.roots.statics }
    ensures behind { by_place program.now roots.old.limit roots.old.roots class place
        ≡ Some (result, roots.new.roots) }
    ensures limit { roots.new.limit ≡ roots.old.limit }
{
    let parents = program.parent_count(class);
    let turn = place as usize;
    if turn < parents {
        let parent = program.parent(class, turn);
        return past_parent(program, roots, place, parent);
    }
    if turn == parents {
        return own_step(program, roots, class, place);
    }
    end_init(roots, class, ClassState::Done);
    InitStep::Goes
}

/// Looks at a class that comes before the one whose initialisation stands on top at a place.
fn past_parent(program: &Program, roots: &mut Roots, place: u32, parent: u32) -> InitStep
    requires frame { 0 < length roots.old.roots.frames }
    requires at { IsAt roots.old.roots place }
    requires few { place + 1 < 2 ^ 32 }
    requires numbers { NumbersOnly program.now parent }
    requires parent { parent < length roots.old.roots.classes }
    requires statics { length (statics program.now.classes) ≤ length roots.old.roots.statics }
    ensures behind { parent_turn program.now roots.old.limit roots.old.roots place parent
        ≡ Some (result, roots.new.roots) }
    ensures limit { roots.new.limit ≡ roots.old.limit }
{
    match roots.state(parent) {
        ClassState::Untouched => begin_parent(program, roots, place, parent),
        ClassState::Failed => {
            roots.set_place(place + 1);
            InitStep::FailedParent
        }
        ClassState::Busy | ClassState::Done => {
            roots.set_place(place + 1);
            InitStep::Goes
        }
    }
}

/// Begins to initialise a class that comes before the one whose initialisation stands on top at a place.
fn begin_parent(program: &Program, roots: &mut Roots, place: u32, parent: u32) -> InitStep
    requires frame { 0 < length roots.old.roots.frames }
    requires at { IsAt roots.old.roots place }
    requires few { place + 1 < 2 ^ 32 }
    requires numbers { NumbersOnly program.now parent }
    requires parent { parent < length roots.old.roots.classes }
    requires statics { length (statics program.now.classes) ≤ length roots.old.roots.statics }
    ensures behind { begins program.now roots.old.limit roots.old.roots
        (placed roots.old.roots (place + 1)) parent ≡ (result, roots.new.roots) }
    ensures limit { roots.new.limit ≡ roots.old.limit }
{
    roots.set_place(place + 1);
    match begin_init(program, roots, parent) {
        Ok(()) => InitStep::Goes,
        Err(Deep) => {
            roots.set_place(place);
            InitStep::Deep
        }
    }
}

/// Enters the initialiser of the class whose initialisation stands on top at a place, or ends it where it has none.
fn own_step(program: &Program, roots: &mut Roots, class: u32, place: u32) -> InitStep
    requires there { is_some (own_turn program.now roots.old.limit roots.old.roots class place
        (initialiser program.now.classes class)) ≡ true }
    requires frame { 0 < length roots.old.roots.frames }
    requires at { IsAt roots.old.roots place }
    requires few { place + 1 < 2 ^ 32 }
    requires class { class < length program.now.classes }
    requires classes { length program.now.classes ≤ length roots.old.roots.classes }
    ensures behind { own_turn program.now roots.old.limit roots.old.roots class place
        (initialiser program.now.classes class) ≡ Some (result, roots.new.roots) }
    ensures limit { roots.new.limit ≡ roots.old.limit }
{
    let Some(method) = program.initialiser(class) else {
        end_init(roots, class, ClassState::Done);
        return InitStep::Goes;
    };
    match &program.method(method).body {
        Some(body) => enter_own(roots, place, method, body),
        None => InitStep::Goes,
    }
}

/// Enters a method without arguments, where the topmost frame is at a place and goes on at the next.
fn enter_own(roots: &mut Roots, place: u32, method: u32, body: &Body) -> InitStep
    requires frame { 0 < length roots.old.roots.frames }
    requires at { IsAt roots.old.roots place }
    requires few { place + 1 < 2 ^ 32 }
    ensures behind { enters roots.old.limit roots.old.roots
        (placed roots.old.roots (place + 1)) method body.now ≡ (result, roots.new.roots) }
    ensures limit { roots.new.limit ≡ roots.old.limit }
{
    let locals = u32::from(body.max_locals);
    let stack = u32::from(body.max_stack);
    roots.set_place(place + 1);
    match roots.enter(method, 0, locals, stack) {
        Ok(()) => InitStep::Goes,
        Err(Deep) => {
            roots.set_place(place);
            InitStep::Deep
        }
    }
}
