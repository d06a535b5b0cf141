// Turns of a run in which an exception that is no Error ends an initialisation, and is wrapped (JVMS §5.5).
ghost use Rattle.cb_heap.specs.Storage.{view_in};
ghost use Rattle.std.specs.Prelude.{◌≡◌, ◌<◌, true};
ghost use Rattle.cb_heap.specs.declared.no_room.NoRoom.TheVariants as rooms;
ghost use Rattle.cb_unwind.specs.Unwound.{wraps};
ghost use Rattle.cb_interp.specs.declared.stop.Stop.TheVariants as stops;
ghost use Rattle.cb_interp.specs.Running.{Ready, RoomEnds, TurnEnds};
ghost use Rattle.cb_act.specs.Turning.{Outside};

use crate::Stop;
use crate::frame_turns::linked_frames;
use crate::linked::linked_programs_fit;
use cb_frames::Roots;
use cb_heap::{NoRoom, Store};
use cb_link::Program;
use cb_plain::Request;
use cb_unwind::unwind_step;

/// The site of an ExceptionInInitializerError.
const EXCEPTION_IN_INITIALIZER: u32 = 23;

/// The words that an exception takes.
const EXCEPTION_WORDS: u64 = 6;

/// A turn in which the pending exception ends the initialisation whose frame is the topmost one: it becomes the cause of an
/// ExceptionInInitializerError, which is pending then.
pub(crate) fn wraps_pending<S: Store>(
    program: &Program,
    store: &mut S,
    roots: &mut Roots,
    request: &mut Request,
) -> Result<(), Stop>
    ghost outside: { Outside }
    requires ready { Ready S.rules program.now (S.storage store.old) roots.old outside }
    requires pending { 0 < roots.old.roots.pending }
    requires wraps { wraps program.now (view_in (S.storage store.old) roots.old.roots)
        ≡ true }
    ensures { TurnEnds S.rules program.now outside (S.storage store.old) (S.storage store.new) roots.old roots.new result }
{
    match wrapped_turn(program, store, roots, request) {
        Ok(()) => Ok(()),
        Err(reason) => Err(Stop::NoRoom(reason)),
    }
}

/// The same, with the refusal of room alone.
fn wrapped_turn<S: Store>(
    program: &Program,
    store: &mut S,
    roots: &mut Roots,
    request: &mut Request,
) -> Result<(), NoRoom>
    ghost outside: { Outside }
    requires ready { Ready S.rules program.now (S.storage store.old) roots.old outside }
    requires pending { 0 < roots.old.roots.pending }
    requires wraps { wraps program.now (view_in (S.storage store.old) roots.old.roots)
        ≡ true }
    ensures { RoomEnds S.rules program.now outside (S.storage store.old) (S.storage store.new) roots.old roots.new result }
{
    linked_frames();
    linked_programs_fit();
    request.clear();
    request.add(EXCEPTION_IN_INITIALIZER, EXCEPTION_WORDS);
    store.make_room(request, roots)?;
    unwind_step(program, store, roots);
    Ok(())
}
