// Natives that give a copy of the words of an object, or keep one with one word more, in two calls: room is asked for, and what was asked for
// is done (Java SE 8 API, String.toCharArray, Object.clone, Throwable.addSuppressed and getSuppressed).
ghost use Rattle.std.specs.Prelude.{◌≡◌, ◌<◌, ◌≤◌, ℕ, List, [], length, map, true, OnOk};
ghost use Rattle.std.specs.List.{AllByRecursion};
ghost use Rattle.cb_heap.specs.Reading.{read_value};
ghost use Rattle.cb_heap.specs.Store.{ReadsAsBefore};
ghost use Rattle.cb_link.specs.Having.{site_kinds};
ghost use Rattle.cb_plain.specs.State.{Roots};
ghost use Rattle.cb_plain.specs.declared.want.Want.{Want};
ghost use Rattle.cb_natives.specs.Given.{AreGiven, have_sorts, roles, sorts_of};
ghost use Rattle.cb_natives.specs.Making.{Asks, HasRoom, MayLeave, MayMake, Performs, Planned, given_back};
ghost use Rattle.cb_natives.specs.MakingArrays.{AreLaid, MayHold, makes_array, wanted_by};

use crate::Exception;
use crate::array_natives::copying_of;
use crate::copy_placing::{SUPPRESSED, make_copy};
use crate::copying::Copying;
use cb_heap::Store;
use cb_library::Native;
use cb_link::Program;
use cb_plain::{Request, Value};

/// The words of the header of an object.
const HEADER_WORDS: u64 = 3;

/// Whether a native gives a copy of the words of an object, or keeps one.
pub(crate) fn makes_array(native: Native) -> bool
    ensures { result ≡ makes_array native }
{
    matches!(
        native,
        Native::ObjectClone
            | Native::StringToCharArray
            | Native::ThrowableAddSuppressed
            | Native::ThrowableGetSuppressed
    )
}

/// Asks for the room of the copy that a native makes, and for nothing else; or answers what it throws. Constant in time.
pub(crate) fn plan_array<S: Store>(
    program: &Program,
    store: &S,
    native: Native,
    arguments: &[Value],
    request: &mut Request,
) -> Result<(), Exception>
    requires known { 32 ≤ length (site_kinds program.now) }
    requires makes { makes_array native ≡ true }
    requires sorts { have_sorts (sorts_of native) arguments.now ≡ true }
    requires given { AreGiven (S.storage store.now).kept (roles native) (map (read_value
        (S.storage store.now).index) arguments.now) }
    requires laid { AreLaid program.now (S.storage store.now).kept native (map (read_value
        (S.storage store.now).index) arguments.now) }
    ensures planned { (roots : Roots) → Planned program.now (record { roots = roots; objects = (S.storage store.now).kept }) native (map (read_value
        (S.storage store.now).index) arguments.now) request.new result }
    ensures sites { OnOk result (AllByRecursion (λ (want : Want). want.site < length (site_kinds program.now)) request.new) }
{
    request.clear();
    match copying_of(program, store, native, arguments) {
        Ok(copying) => {
            ask(copying, request);
            Ok(())
        }
        Err(exception) => Err(exception),
    }
}

/// Asks for the room that a copy takes.
fn ask(copying: Copying, request: &mut Request)
    requires { request.old ≡ [] }
    ensures { request.new ≡ wanted_by copying }
{
    match copying {
        Copying::Gives { site, size, .. } => {
            request.add(site, HEADER_WORDS + u64::from(size));
        }
        Copying::Adds { size, .. } => {
            request.add(SUPPRESSED, HEADER_WORDS + (u64::from(size) + 1));
        }
    }
}

/// Makes the copy of a native, where room was made as it asks for it, and answers its place where it is given. Takes time in its words.
pub(crate) fn run_array<S: Store>(
    program: &Program,
    store: &mut S,
    native: Native,
    arguments: &[Value],
) -> Option<u64>
    ghost asked: { Roots × List Want }
    requires makes { makes_array native ≡ true }
    requires sorts { have_sorts (sorts_of native) arguments.now ≡ true }
    requires given { AreGiven (S.storage store.old).kept (roles native) (map (read_value
        (S.storage store.old).index) arguments.now) }
    requires laid { AreLaid program.now (S.storage store.old).kept native (map (read_value
        (S.storage store.old).index) arguments.now) }
    requires asks { Asks program.now (record { roots = asked.0; objects = (S.storage store.old).kept }) native (map (read_value
        (S.storage store.old).index) arguments.now) asked.1 }
    requires room { (asked.1 ≡ [] → ⊥) → HasRoom (S.storage store.old).kept asked.1 (S.storage store.old).granted }
    requires shaped { MayMake program.now (S.storage store.old).settings.shapes }
    requires holds { MayHold program.now (S.storage store.old).settings.shapes }
    requires follows { MayLeave program.now (S.storage store.old).settings.allows (record { roots = asked.0; objects = (S.storage store.old).kept }) native (map (read_value (S.storage store.old).index) arguments.now) }
    ensures made { (roots : Roots) → Performs S.rules program.now native (map (read_value (S.storage store.old).index) arguments.now)
        (record { roots = roots; objects = (S.storage store.old).kept }) (S.storage store.old).facts (record { roots = roots; objects = (S.storage store.new).kept }) (S.storage store.new).facts
        (given_back (S.storage store.new).index result) }
    ensures places { ReadsAsBefore (S.storage store.old).kept (S.storage store.old).index (S.storage store.new).index }
    ensures faults { (S.storage store.new).faults ≡ (S.storage store.old).faults }
    ensures settings { (S.storage store.new).settings ≡ (S.storage store.old).settings }
{
    let Ok(copying) = copying_of(program, store, native, arguments) else {
        unreachable!()
    };
    make_copy(program, store, copying)
}
