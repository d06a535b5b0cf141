// Turns of a run in which an initialisation looks at a class whose initialisation failed (JVMS §5.5).
ghost use Rattle.cb_heap.specs.Storage.{view_in};
ghost use Rattle.std.specs.Prelude.{◌≡◌, ◌<◌, ◌+◌, ◌^◌, ℕ, length, true, IsTrue, Some};
ghost use Rattle.cb_frames.specs.Tops.{placed};
ghost use Rattle.cb_heap.specs.Closed.{IsClosed};
ghost use Rattle.cb_heap.specs.declared.no_room.NoRoom.TheVariants as rooms;
ghost use Rattle.cb_heap.specs.Shaped.{has_size, new_object};
ghost use Rattle.cb_link.specs.Having.{site_kinds};
ghost use Rattle.cb_machine.specs.Machine.{kind_of_site};
ghost use Rattle.cb_machine.specs.Plans.{object_of};
ghost use Rattle.cb_machine.specs.Sites.{no_class_definition};
ghost use Rattle.cb_machine.specs.Steps.{plan};
ghost use Rattle.cb_machine.specs.Throwing.{exception_contents, throws};
ghost use Rattle.cb_plain.specs.Updates.{with_roots};
ghost use Rattle.cb_unwind.specs.Initialised.{IsOnTop, initialised};
ghost use Rattle.cb_interp.specs.declared.stop.Stop.TheVariants as stops;
ghost use Rattle.cb_interp.specs.Initials.{fails};
ghost use Rattle.cb_act.specs.Placing.{exception_size};
ghost use Rattle.cb_interp.specs.Running.{Ready, RoomEnds, TurnEnds};
ghost use Rattle.cb_act.specs.Turning.{Outside, machine_of, most_at_once, state_of};

use crate::Stop;
use crate::frame_turns::linked_frames;
use crate::linked::linked_programs_fit;
use cb_act::{NO_CLASS_DEFINITION, throw};
use cb_frames::Roots;
use cb_heap::{NoRoom, Store};
use cb_link::Program;
use cb_plain::Request;

/// The words that an exception takes.
const EXCEPTION_WORDS: u64 = 6;

/// A turn in which the initialisation that stands on top at a place looks at a class whose initialisation failed: it goes to its next place,
/// and a NoClassDefFoundError is thrown.
pub(crate) fn parent_failed<S: Store>(
    program: &Program,
    store: &mut S,
    roots: &mut Roots,
    request: &mut Request,
    place: u32,
) -> Result<(), Stop>
    ghost outside: { Outside }
    requires ready { Ready S.rules program.now (S.storage store.old) roots.old outside }
    requires quiet { roots.old.roots.pending ≡ 0 }
    requires top { (class : ℕ) × IsOnTop roots.old.roots class place }
    requires fails { fails (initialised program.now roots.old.limit roots.old.roots) ≡ true }
    ensures { TurnEnds S.rules program.now outside (S.storage store.old) (S.storage store.new) roots.old roots.new result }
{
    linked_programs_fit();
    linked_frames();
    match failed_turn(program, store, roots, request, place + 1) {
        Ok(()) => Ok(()),
        Err(reason) => Err(Stop::NoRoom(reason)),
    }
}

/// A turn in which the topmost frame goes to another place, and a NoClassDefFoundError is thrown: room is made for it, and it is placed and
/// becomes pending.
fn failed_turn<S: Store>(
    program: &Program,
    store: &mut S,
    roots: &mut Roots,
    request: &mut Request,
    next: u32,
) -> Result<(), NoRoom>
    ghost outside: { Outside }
    requires plans { plan (machine_of program.now roots.old.limit) (state_of (view_in (S.storage store.old) roots.old.roots) outside)
        ≡ Some (throws (machine_of program.now roots.old.limit) (with_roots (state_of (view_in (S.storage store.old) roots.old.roots) outside) (placed (view_in (S.storage store.old) roots.old.roots).roots next)) no_class_definition) }
    requires site { no_class_definition < length (site_kinds program.now) }
    requires shaped { new_object (S.storage store.old).settings.shapes no_class_definition
        (kind_of_site program.now no_class_definition) exception_size
        ≡ object_of no_class_definition (kind_of_site program.now no_class_definition)
        (exception_contents 0 0) }
    requires sized { IsTrue (has_size (S.storage store.old).settings.shapes
        (kind_of_site program.now no_class_definition) exception_size) }
    requires knows { IsTrue ((S.storage store.old).settings.knows no_class_definition) }
    requires few { S.rules.fixed ≡ true → length (S.storage store.old).kept + most_at_once < 2 ^ 63 }
    requires closed { IsClosed (view_in (S.storage store.old) roots.old.roots) }
    requires frame { 0 < length roots.old.roots.frames }
    ensures { RoomEnds S.rules program.now outside (S.storage store.old) (S.storage store.new) roots.old roots.new result }
{
    request.clear();
    request.add(NO_CLASS_DEFINITION, EXCEPTION_WORDS);
    store.make_room(request, roots)?;
    throw(
        store,
        roots,
        NO_CLASS_DEFINITION,
        program.site_kind(NO_CLASS_DEFINITION),
    );
    roots.set_place(next);
    Ok(())
}
