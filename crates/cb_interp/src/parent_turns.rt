// Turns of a run in which an initialisation looks at a class that comes before, of which static fields have strings as constants.
ghost use Rattle.cb_heap.specs.Storage.{view_in};
ghost use Rattle.std.specs.Prelude.{◌≡◌, ◌+◌, ◌<◌, ◌≤◌, ◌^◌, false, length, true, Some};
ghost use Rattle.cb_frames.specs.Tops.{placed};
ghost use Rattle.cb_heap.specs.Closed.{IsClosed};
ghost use Rattle.cb_heap.specs.Follows.{Follows};
ghost use Rattle.cb_link.specs.Calls.{initial_parents};
ghost use Rattle.cb_link.specs.Having.{site_kinds};
ghost use Rattle.cb_link.specs.Slots.{statics};
ghost use Rattle.cb_machine.specs.Initialising.{begun_upon, own_statics};
ghost use Rattle.cb_machine.specs.Plans.{made};
ghost use Rattle.cb_machine.specs.Sites.{constant_characters};
ghost use Rattle.cb_machine.specs.Steps.{plan};
ghost use Rattle.cb_plain.specs.Depth.{has_room};
ghost use Rattle.cb_unwind.specs.Initialised.{IsOnTop, initialised};
ghost use Rattle.cb_interp.specs.Arguments.{Covers};
ghost use Rattle.cb_interp.specs.Fit.{ShapesOf};
ghost use Rattle.cb_interp.specs.Initials.{fails, is_untouched};
ghost use Rattle.cb_interp.specs.Running.{Ready, RoomEnds, TurnEnds};
ghost use Rattle.cb_interp.specs.TextStatics.{HasSerials, MayPlaceOwn, first_plan, wants_behind};
ghost use Rattle.cb_act.specs.Turning.{Outside, facts_behind, machine_of, state_of};

use crate::Stop;
use crate::frame_turns::{linked_frames, throws_at};
use crate::linked::linked_constants;
use crate::stopping::stopped;
use crate::text_statics::ask_own;
use crate::text_turns::begin_placed;
use cb_act::STACK_OVERFLOW;
use cb_frames::Roots;
use cb_heap::{NoRoom, Store};
use cb_link::Program;
use cb_plain::{ClassState, Request};

/// A turn in which the initialisation of a class looks at one that comes before, whose static fields have strings as constants (JVMS §5.5).
pub(crate) fn looks_at_parent<S: Store>(
    program: &Program,
    store: &mut S,
    roots: &mut Roots,
    request: &mut Request,
    class: u32,
    place: u32,
) -> Result<(), Stop>
    ghost outside: { Outside }
    requires ready { Ready S.rules program.now (S.storage store.old) roots.old outside }
    requires quiet { roots.old.roots.pending ≡ 0 }
    requires top { IsOnTop roots.old.roots class place }
    requires class { class < length program.now.classes }
    requires before { place < length (initial_parents program.now.classes class) }
    requires goes { fails (initialised program.now roots.old.limit roots.old.roots) ≡ false }
    ensures { TurnEnds S.rules program.now outside (S.storage store.old) (S.storage store.new) roots.old roots.new result }
{
    linked_frames();
    let parent = program.parent(class, place as usize);
    if is_untouched(roots.state(parent)) {
        return behind_texts(program, store, roots, request, place, parent);
    }
    roots.set_place(place + 1);
    Ok(())
}

/// Whether a class wasn't looked at yet.
fn is_untouched(now: ClassState) -> bool
    ensures { result ≡ is_untouched now }
{
    matches!(now, ClassState::Untouched)
}

/// One that wasn't looked at yet: it begins to be initialised, or a StackOverflowError is thrown where there is no room for its frame.
fn behind_texts<S: Store>(
    program: &Program,
    store: &mut S,
    roots: &mut Roots,
    request: &mut Request,
    place: u32,
    class: u32,
) -> Result<(), Stop>
    ghost outside: { Outside }
    requires ready { Ready S.rules program.now (S.storage store.old) roots.old outside }
    requires plans { plan (machine_of program.now roots.old.limit) (state_of (view_in (S.storage store.old) roots.old.roots) outside)
        ≡ Some (begun_upon (machine_of program.now roots.old.limit) (state_of (view_in (S.storage store.old) roots.old.roots) outside) (placed (view_in (S.storage store.old) roots.old.roots).roots (place + 1)).frames class) }
    requires class { class < length program.now.classes }
    requires stands { 0 < length roots.old.roots.frames }
    requires few { place + 1 < 2 ^ 32 }
    ensures { TurnEnds S.rules program.now outside (S.storage store.old) (S.storage store.new) roots.old roots.new result }
{
    linked_constants();
    if !roots.has_room(0) {
        return throws_at(program, store, roots, request, STACK_OVERFLOW);
    }
    stopped(behind_asked(program, store, roots, request, place, class))
}

/// The same where there is room for its frame, and all strings may be placed.
fn behind_asked<S: Store>(
    program: &Program,
    store: &mut S,
    roots: &mut Roots,
    request: &mut Request,
    place: u32,
    class: u32,
) -> Result<(), NoRoom>
    ghost outside: { Outside }
    requires ready { Ready S.rules program.now (S.storage store.old) roots.old outside }
    requires plans { plan (machine_of program.now roots.old.limit) (state_of (view_in (S.storage store.old) roots.old.roots) outside)
        ≡ Some (begun_upon (machine_of program.now roots.old.limit) (state_of (view_in (S.storage store.old) roots.old.roots) outside) (placed (view_in (S.storage store.old) roots.old.roots).roots (place + 1)).frames class) }
    requires class { class < length program.now.classes }
    requires stands { 0 < length roots.old.roots.frames }
    requires few { place + 1 < 2 ^ 32 }
    requires sites { constant_characters < length (site_kinds program.now) }
    requires may { MayPlaceOwn program.now class }
    requires room { has_room roots.old.limit roots.old.roots.frames 0 ≡ true }
    ensures { RoomEnds S.rules program.now outside (S.storage store.old) (S.storage store.new) roots.old roots.new result }
{
    request.clear();
    ask_own(program, store, roots, request, class);
    if request.is_empty() {
        behind_placed(program, store, roots, place, class);
        return Ok(());
    }
    store.make_room(request, roots)?;
    behind_placed(program, store, roots, place, class);
    Ok(())
}

/// The place of the frame on top grows, and a class begins to be initialised upon it: there is room for all.
fn behind_placed<S: Store>(
    program: &Program,
    store: &mut S,
    roots: &mut Roots,
    place: u32,
    class: u32,
)
    ghost outside: { Outside }
    requires class { class < length roots.old.roots.classes }
    requires stands { 0 < length roots.old.roots.frames }
    requires few { place + 1 < 2 ^ 32 }
    requires room { has_room roots.old.limit (placed roots.old.roots (place + 1)).frames 0
        ≡ true }
    requires may { MayPlaceOwn program.now class }
    requires shaped { ShapesOf program.now (S.storage store.old).settings.shapes }
    requires follows { Follows (S.storage store.old).settings.allows (made (begun_upon (machine_of program.now roots.old.limit)
        (state_of (view_in (S.storage store.old) roots.old.roots) outside) (placed (view_in (S.storage store.old) roots.old.roots).roots (place + 1)).frames class)).objects }
    requires closed { IsClosed (view_in (S.storage store.old) roots.old.roots) }
    requires statics { length (statics program.now.classes) ≤ length roots.old.roots.statics }
    requires tables { length program.now.constants ≤ length roots.old.roots.tables.constants }
    requires covers { Covers (S.storage store.old).granted (wants_behind
        (machine_of program.now roots.old.limit) (first_plan (state_of (view_in (S.storage store.old) roots.old.roots) outside) (placed (view_in (S.storage store.old) roots.old.roots).roots (place + 1)).frames class)
        (own_statics program.now class)) }
    requires serials { HasSerials (length (S.storage store.old).kept) (S.storage store.old).granted (wants_behind
        (machine_of program.now roots.old.limit) (first_plan (state_of (view_in (S.storage store.old) roots.old.roots) outside) (placed (view_in (S.storage store.old) roots.old.roots).roots (place + 1)).frames class)
        (own_statics program.now class)) }
    ensures begun { state_of (view_in (S.storage store.new) roots.new.roots) outside
        ≡ made (begun_upon (machine_of program.now roots.old.limit) (state_of (view_in (S.storage store.old) roots.old.roots) outside) (placed (view_in (S.storage store.old) roots.old.roots).roots (place + 1)).frames class) }
    ensures facts { (S.storage store.new).facts ≡ facts_behind S.rules (S.storage store.old).facts (begun_upon
        (machine_of program.now roots.old.limit) (state_of (view_in (S.storage store.old) roots.old.roots) outside) (placed (view_in (S.storage store.old) roots.old.roots).roots (place + 1)).frames class).placed }
    ensures limit { roots.new.limit ≡ roots.old.limit }
    ensures faults { (S.storage store.new).faults ≡ (S.storage store.old).faults }
    ensures settings { (S.storage store.new).settings ≡ (S.storage store.old).settings }
{
    roots.set_place(place + 1);
    begin_placed(program, store, roots, class);
}
