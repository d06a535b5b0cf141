// Turns of a run in which an exception is pending, or a class is being initialised.
ghost use Rattle.cb_heap.specs.Storage.{view_in};
ghost use Rattle.std.specs.Prelude.{◌≡◌, ◌+◌, ◌<◌, ◌^◌, ℕ, false, is_some, length, slice_get, true, Some};
ghost use Rattle.std.specs.List.{Contains};
ghost use Rattle.cb_frames.specs.Tops.{topmost};
ghost use Rattle.cb_heap.specs.declared.no_room.NoRoom.TheVariants as rooms;
ghost use Rattle.cb_link.specs.Calls.{initial_parents};
ghost use Rattle.cb_link.specs.Program.{Linked};
ghost use Rattle.cb_machine.specs.Initialising.{begun_upon};
ghost use Rattle.cb_machine.specs.Library.{error};
ghost use Rattle.cb_machine.specs.Steps.{plan};
ghost use Rattle.cb_machine.specs.Throwing.{throws};
ghost use Rattle.cb_safety.specs.Linked.{IsLinked};
ghost use Rattle.cb_safety.specs.Throwing.{thrown_sites};
ghost use Rattle.cb_unwind.specs.Begun.{NumbersOnly};
ghost use Rattle.cb_unwind.specs.Initialised.{IsOnTop, NumbersNext, initialised};
ghost use Rattle.cb_interp.specs.declared.stop.Stop.TheVariants as stops;
ghost use Rattle.cb_interp.specs.Initials.{fails};
ghost use Rattle.cb_interp.specs.Running.{Ready, TurnEnds};
ghost use Rattle.cb_act.specs.Turning.{Outside, machine_of, state_of};

use crate::Stop;
use crate::beginning::begin_turn;
use crate::failed_turns::parent_failed;
use crate::init_turns::{fails_next, init_turn};
use crate::linked::linked_programs_fit;
use crate::numbers_only::has_numbers_only;
use crate::parent_turns::looks_at_parent;
use crate::text_turns::begins_texts;
use crate::throwing::throw_turn;
use crate::unwind_turns::unwind_turn;
use crate::wrapped_turns::wraps_pending;
use cb_act::STACK_OVERFLOW;
use cb_frames::{Deep, Roots};
use cb_heap::Store;
use cb_link::Program;
use cb_plain::Request;
use cb_safety::{classes_own_kinds, linked_programs};
use cb_unwind::wraps;

/// The next turn of a run in which an exception is pending (JVMS §2.10, §5.5): a handler of the topmost method takes it, or the topmost frame
/// ends. Where no frame stands the run has ended.
pub(crate) fn pending_turn<S: Store>(
    program: &Program,
    store: &mut S,
    roots: &mut Roots,
    request: &mut Request,
) -> Result<(), Stop>
    ghost outside: { Outside }
    requires ready { Ready S.rules program.now (S.storage store.old) roots.old outside }
    requires pending { 0 < roots.old.roots.pending }
    ensures { TurnEnds S.rules program.now outside (S.storage store.old) (S.storage store.new) roots.old roots.new result }
{
    match roots.top() {
        Some(_) => unwinds(program, store, roots, request),
        None => Err(Stop::Uncaught),
    }
}

/// The same where a frame stands.
fn unwinds<S: Store>(
    program: &Program,
    store: &mut S,
    roots: &mut Roots,
    request: &mut Request,
) -> Result<(), Stop>
    ghost outside: { Outside }
    requires ready { Ready S.rules program.now (S.storage store.old) roots.old outside }
    requires pending { 0 < roots.old.roots.pending }
    requires stands { is_some (topmost roots.old.roots.frames) ≡ true }
    ensures { TurnEnds S.rules program.now outside (S.storage store.old) (S.storage store.new) roots.old roots.new result }
{
    linked_frames();
    if wraps(program, store, roots) {
        return wraps_pending(program, store, roots, request);
    }
    unwind_turn(program, store, roots);
    Ok(())
}

/// The next turn of a run in which no exception is pending and a class is being initialised, with its frame on top at a place (JVMS §5.5).
pub(crate) fn initial_turn<S: Store>(
    program: &Program,
    store: &mut S,
    roots: &mut Roots,
    request: &mut Request,
    class: u32,
    place: u32,
) -> Result<(), Stop>
    ghost outside: { Outside }
    requires ready { Ready S.rules program.now (S.storage store.old) roots.old outside }
    requires quiet { roots.old.roots.pending ≡ 0 }
    requires top { IsOnTop roots.old.roots class place }
    ensures { TurnEnds S.rules program.now outside (S.storage store.old) (S.storage store.new) roots.old roots.new result }
{
    if fails_next(program, roots) {
        return parent_failed(program, store, roots, request, place);
    }
    if numbers_at(program, class, place) {
        return initialises(program, store, roots, request);
    }
    looks_at_parent(program, store, roots, request, class, place)
}

/// The same where no class before it has failed, and constants are numbers.
fn initialises<S: Store>(
    program: &Program,
    store: &mut S,
    roots: &mut Roots,
    request: &mut Request,
) -> Result<(), Stop>
    ghost outside: { Outside }
    requires ready { Ready S.rules program.now (S.storage store.old) roots.old outside }
    requires quiet { roots.old.roots.pending ≡ 0 }
    requires stands { is_some (topmost roots.old.roots.frames) ≡ true }
    requires goes { fails (initialised program.now roots.old.limit roots.old.roots) ≡ false }
    requires initial { (class : ℕ) × (place : ℕ) × IsOnTop roots.old.roots class place }
    requires numbers { NumbersNext program.now roots.old.roots }
    ensures { TurnEnds S.rules program.now outside (S.storage store.old) (S.storage store.new) roots.old roots.new result }
{
    linked_frames();
    match init_turn(program, store, roots) {
        Ok(()) => Ok(()),
        Err(Deep) => throws_at(program, store, roots, request, STACK_OVERFLOW),
    }
}

/// Whether no static field of the class that is looked at next, where the initialisation of a class is at a place, has a string as its
/// constant. Takes time in the static fields of the program.
fn numbers_at(program: &Program, class: u32, place: u32) -> bool
    requires class { class < length program.now.classes }
    ensures numbers { result ≡ true → (parent : ℕ) → slice_get
        (initial_parents program.now.classes class) place ≡ Some parent
        → NumbersOnly program.now parent }
    ensures texts { result ≡ false → place < length (initial_parents program.now.classes class) }
{
    let turn = place as usize;
    if turn < program.parent_count(class) {
        return has_numbers_only(program, program.parent(class, turn));
    }
    true
}

/// A turn in which a class begins to be initialised upon the frames that stand, or a StackOverflowError is thrown where there is no room for
/// its frame (JVMS §5.5).
pub(crate) fn begins_class<S: Store>(
    program: &Program,
    store: &mut S,
    roots: &mut Roots,
    request: &mut Request,
    class: u32,
) -> Result<(), Stop>
    ghost outside: { Outside }
    requires ready { Ready S.rules program.now (S.storage store.old) roots.old outside }
    requires plans { plan (machine_of program.now roots.old.limit) (state_of (view_in (S.storage store.old) roots.old.roots) outside)
        ≡ Some (begun_upon (machine_of program.now roots.old.limit) (state_of (view_in (S.storage store.old) roots.old.roots) outside) (view_in (S.storage store.old) roots.old.roots).roots.frames class) }
    requires class { class < length program.now.classes }
    ensures { TurnEnds S.rules program.now outside (S.storage store.old) (S.storage store.new) roots.old roots.new result }
{
    if has_numbers_only(program, class) {
        return begins_numbers(program, store, roots, request, class);
    }
    begins_texts(program, store, roots, request, class)
}

/// The same where constants are numbers.
fn begins_numbers<S: Store>(
    program: &Program,
    store: &mut S,
    roots: &mut Roots,
    request: &mut Request,
    class: u32,
) -> Result<(), Stop>
    ghost outside: { Outside }
    requires ready { Ready S.rules program.now (S.storage store.old) roots.old outside }
    requires plans { plan (machine_of program.now roots.old.limit) (state_of (view_in (S.storage store.old) roots.old.roots) outside)
        ≡ Some (begun_upon (machine_of program.now roots.old.limit) (state_of (view_in (S.storage store.old) roots.old.roots) outside) (view_in (S.storage store.old) roots.old.roots).roots.frames class) }
    requires class { class < length program.now.classes }
    requires numbers { NumbersOnly program.now class }
    ensures { TurnEnds S.rules program.now outside (S.storage store.old) (S.storage store.new) roots.old roots.new result }
{
    match begin_turn(program, store, roots, class) {
        Ok(()) => Ok(()),
        Err(Deep) => throws_at(program, store, roots, request, STACK_OVERFLOW),
    }
}

/// A turn in which an exception of the machine without a message is thrown, of one of the sites of these.
pub(crate) fn throws_at<S: Store>(
    program: &Program,
    store: &mut S,
    roots: &mut Roots,
    request: &mut Request,
    site: u32,
) -> Result<(), Stop>
    ghost outside: { Outside }
    requires ready { Ready S.rules program.now (S.storage store.old) roots.old outside }
    requires plans { plan (machine_of program.now roots.old.limit) (state_of (view_in (S.storage store.old) roots.old.roots) outside)
        ≡ Some (throws (machine_of program.now roots.old.limit) (state_of (view_in (S.storage store.old) roots.old.roots) outside) site) }
    requires among { Contains thrown_sites site }
    ensures { TurnEnds S.rules program.now outside (S.storage store.old) (S.storage store.new) roots.old roots.new result }
{
    linked_programs_fit();
    match throw_turn(program, store, roots, request, site) {
        Ok(()) => Ok(()),
        Err(reason) => Err(Stop::NoRoom(reason)),
    }
}

/// What these turns ask of a linked program: Error is one of its kinds, and few classes are initialised before one.
pub(crate) fn linked_frames()
    ensures error { (program : Linked) → IsLinked program → error < length program.kinds }
    ensures few { (program : Linked) → IsLinked program → (class : ℕ)
        → length (initial_parents program.classes class) + 1 < 2 ^ 32 }
{
    linked_programs();
    classes_own_kinds();
}
