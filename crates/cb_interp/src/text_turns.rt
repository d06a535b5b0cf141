// Turns of a run in which a class begins to be initialised of which static fields have strings as constants.
ghost use Rattle.cb_heap.specs.Storage.{view_in};
ghost use Rattle.std.specs.Prelude.{◌≡◌, ◌<◌, ◌≤◌, ℕ, length, true, Some};
ghost use Rattle.cb_heap.specs.Closed.{IsClosed};
ghost use Rattle.cb_heap.specs.Follows.{Follows};
ghost use Rattle.cb_heap.specs.declared.no_room.NoRoom.TheVariants as rooms;
ghost use Rattle.cb_link.specs.Having.{site_kinds};
ghost use Rattle.cb_link.specs.Slots.{statics};
ghost use Rattle.cb_machine.specs.Initialising.{begun_upon, own_statics};
ghost use Rattle.cb_machine.specs.Plans.{made};
ghost use Rattle.cb_machine.specs.Sites.{constant_characters};
ghost use Rattle.cb_machine.specs.Steps.{plan};
ghost use Rattle.cb_plain.specs.Depth.{has_room};
ghost use Rattle.cb_interp.specs.Arguments.{Covers};
ghost use Rattle.cb_interp.specs.Fit.{ShapesOf};
ghost use Rattle.cb_interp.specs.Running.{Ready, RoomEnds, TurnEnds};
ghost use Rattle.cb_interp.specs.TextStatics.{HasSerials, MayPlaceOwn, first_plan, wants_behind};
ghost use Rattle.cb_act.specs.Turning.{Outside, facts_behind, machine_of, state_of};
ghost use Rattle.cb_interp.specs.declared.stop.Stop.TheVariants as stops;

use crate::Stop;
use crate::frame_turns::throws_at;
use crate::linked::linked_constants;
use crate::stopping::stopped;
use crate::text_statics::{ask_own, place_own};
use cb_act::STACK_OVERFLOW;
use cb_frames::Roots;
use cb_heap::{NoRoom, Store};
use cb_link::Program;
use cb_plain::{ClassState, Request};

/// A turn in which a class begins to be initialised upon the frames that stand, with strings as the constants of static fields, or a
/// StackOverflowError is thrown where there is no room for its frame (JVMS §5.5). Takes time in the square of the static fields of the
/// program, and in the units of strings that are new.
pub(crate) fn begins_texts<S: Store>(
    program: &Program,
    store: &mut S,
    roots: &mut Roots,
    request: &mut Request,
    class: u32,
) -> Result<(), Stop>
    ghost outside: { Outside }
    requires ready { Ready S.rules program.now (S.storage store.old) roots.old outside }
    requires plans { plan (machine_of program.now roots.old.limit) (state_of (view_in (S.storage store.old) roots.old.roots) outside)
        ≡ Some (begun_upon (machine_of program.now roots.old.limit) (state_of (view_in (S.storage store.old) roots.old.roots) outside) (view_in (S.storage store.old) roots.old.roots).roots.frames class) }
    requires class { class < length program.now.classes }
    ensures { TurnEnds S.rules program.now outside (S.storage store.old) (S.storage store.new) roots.old roots.new result }
{
    linked_constants();
    if !roots.has_room(0) {
        return throws_at(program, store, roots, request, STACK_OVERFLOW);
    }
    stopped(begins_asked(program, store, roots, request, class))
}

/// The same where there is room for its frame, and all strings may be placed.
fn begins_asked<S: Store>(
    program: &Program,
    store: &mut S,
    roots: &mut Roots,
    request: &mut Request,
    class: u32,
) -> Result<(), NoRoom>
    ghost outside: { Outside }
    requires ready { Ready S.rules program.now (S.storage store.old) roots.old outside }
    requires plans { plan (machine_of program.now roots.old.limit) (state_of (view_in (S.storage store.old) roots.old.roots) outside)
        ≡ Some (begun_upon (machine_of program.now roots.old.limit) (state_of (view_in (S.storage store.old) roots.old.roots) outside) (view_in (S.storage store.old) roots.old.roots).roots.frames class) }
    requires class { class < length program.now.classes }
    requires sites { constant_characters < length (site_kinds program.now) }
    requires may { MayPlaceOwn program.now class }
    requires room { has_room roots.old.limit roots.old.roots.frames 0 ≡ true }
    ensures { RoomEnds S.rules program.now outside (S.storage store.old) (S.storage store.new) roots.old roots.new result }
{
    request.clear();
    ask_own(program, store, roots, request, class);
    if request.is_empty() {
        begin_placed(program, store, roots, class);
        return Ok(());
    }
    store.make_room(request, roots)?;
    begin_placed(program, store, roots, class);
    Ok(())
}

/// A class begins to be initialised upon the frames that stand, and its static fields with constants get their values: there is room for
/// its frame, and for the strings that are new. Takes time in the static fields of the program, and in the units of these.
pub(crate) fn begin_placed<S: Store>(
    program: &Program,
    store: &mut S,
    roots: &mut Roots,
    class: u32,
)
    ghost outside: { Outside }
    requires class { class < length roots.old.roots.classes }
    requires room { has_room roots.old.limit roots.old.roots.frames 0 ≡ true }
    requires may { MayPlaceOwn program.now class }
    requires shaped { ShapesOf program.now (S.storage store.old).settings.shapes }
    requires follows { Follows (S.storage store.old).settings.allows (made (begun_upon (machine_of program.now roots.old.limit)
        (state_of (view_in (S.storage store.old) roots.old.roots) outside) (view_in (S.storage store.old) roots.old.roots).roots.frames class)).objects }
    requires closed { IsClosed (view_in (S.storage store.old) roots.old.roots) }
    requires statics { length (statics program.now.classes) ≤ length roots.old.roots.statics }
    requires tables { length program.now.constants ≤ length roots.old.roots.tables.constants }
    requires covers { Covers (S.storage store.old).granted (wants_behind
        (machine_of program.now roots.old.limit) (first_plan (state_of (view_in (S.storage store.old) roots.old.roots) outside) (view_in (S.storage store.old)
        roots.old.roots).roots.frames class) (own_statics program.now class)) }
    requires serials { HasSerials (length (S.storage store.old).kept) (S.storage store.old).granted (wants_behind
        (machine_of program.now roots.old.limit) (first_plan (state_of (view_in (S.storage store.old) roots.old.roots) outside) (view_in (S.storage store.old)
        roots.old.roots).roots.frames class) (own_statics program.now class)) }
    ensures begun { state_of (view_in (S.storage store.new) roots.new.roots) outside
        ≡ made (begun_upon (machine_of program.now roots.old.limit) (state_of (view_in (S.storage store.old) roots.old.roots) outside) (view_in (S.storage store.old) roots.old.roots).roots.frames class) }
    ensures facts { (S.storage store.new).facts ≡ facts_behind S.rules (S.storage store.old).facts (begun_upon
        (machine_of program.now roots.old.limit) (state_of (view_in (S.storage store.old) roots.old.roots) outside) (view_in (S.storage store.old)
        roots.old.roots).roots.frames class).placed }
    ensures limit { roots.new.limit ≡ roots.old.limit }
    ensures faults { (S.storage store.new).faults ≡ (S.storage store.old).faults }
    ensures settings { (S.storage store.new).settings ≡ (S.storage store.old).settings }
{
    let _ = roots.enter_init(class);
    roots.set_state(class, ClassState::Busy);
    place_own(program, store, roots, class);
}
