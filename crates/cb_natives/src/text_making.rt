// Natives that give a new String (Java SE 8 API, java.lang): the room for it, and the string.
ghost use Rattle.std.specs.Prelude.{◌≡◌, ◌<◌, [], ℕ, List, OnOk, Some, map, true};
ghost use Rattle.std.specs.List.{AllByRecursion};
ghost use Rattle.cb_heap.specs.Reading.{read_value};
ghost use Rattle.cb_heap.specs.Store.{ReadsAsBefore};
ghost use Rattle.cb_plain.specs.State.{Roots};
ghost use Rattle.cb_plain.specs.declared.want.Want.{Want};
ghost use Rattle.cb_natives.specs.Given.{AreGiven, have_sorts, roles, sorts_of};
ghost use Rattle.cb_natives.specs.Making.{Asks, HasRoom, MayLeave, MayMake, Performs, Planned, given_back};
ghost use Rattle.cb_natives.specs.MakingTexts.{makes_text};

use crate::Exception;
use crate::placing_texts::{MADE_CHARACTERS, MADE_STRINGS, place_text};
use crate::text_of::text_of;
use crate::writing::text_size;
use cb_heap::Store;
use cb_library::Native;
use cb_link::Program;
use cb_plain::{Request, Value};

/// The words of the header of an object, and those of a string.
const HEADER_WORDS: u64 = 3;

const STRING_WORDS: u64 = 4;

/// No array is longer than this.
const MOST_UNITS: u64 = (1 << 31) - 1;

/// Asks for the room of the string that a native gives, and of its characters; or says what the native throws in its place. Takes constant
/// time.
pub(crate) fn plan_text<S: Store>(
    program: &Program,
    store: &S,
    native: Native,
    arguments: &[Value],
    request: &mut Request,
) -> Result<(), Exception>
    requires makes { makes_text native ≡ true }
    requires sorts { have_sorts (sorts_of native) arguments.now ≡ true }
    requires given { AreGiven (S.storage store.now).kept (roles native) (map (read_value
        (S.storage store.now).index) arguments.now) }
    ensures planned { (roots : Roots) → Planned program.now (record { roots = roots; objects = (S.storage store.now).kept }) native (map (read_value (S.storage store.now).index) arguments.now) request.new result }
    ensures sites { OnOk result (AllByRecursion (λ (want : Want). want.site < 32) request.new) }
{
    request.clear();
    let text = text_of(store, native, arguments)?;
    let size = text_size(program, store, &text);
    if size > MOST_UNITS {
        return Err(Exception::NegativeArraySize);
    }
    request.add(MADE_CHARACTERS, HEADER_WORDS + size);
    request.add(MADE_STRINGS, STRING_WORDS);
    Ok(())
}

/// Places the string that a native gives, in the room that was asked for, and answers its place. Takes time in its units.
pub(crate) fn run_text<S: Store>(
    program: &Program,
    store: &mut S,
    native: Native,
    arguments: &[Value],
) -> u64
    ghost asked: { Roots × List Want }
    requires makes { makes_text native ≡ true }
    requires sorts { have_sorts (sorts_of native) arguments.now ≡ true }
    requires given { AreGiven (S.storage store.old).kept (roles native) (map (read_value
        (S.storage store.old).index) arguments.now) }
    requires asks { Asks program.now (record { roots = asked.0; objects = (S.storage store.old).kept }) native (map (read_value (S.storage store.old).index) arguments.now) asked.1 }
    requires room { (asked.1 ≡ [] → ⊥) → HasRoom (S.storage store.old).kept asked.1 (S.storage store.old).granted }
    requires shaped { MayMake program.now (S.storage store.old).settings.shapes }
    requires follows { MayLeave program.now (S.storage store.old).settings.allows (record { roots = asked.0; objects = (S.storage store.old).kept }) native (map (read_value (S.storage store.old).index) arguments.now) }
    ensures made { (roots : Roots) → Performs S.rules program.now native (map (read_value (S.storage store.old).index) arguments.now) (record { roots = roots; objects = (S.storage store.old).kept }) (S.storage store.old).facts (record { roots = roots; objects = (S.storage store.new).kept }) (S.storage store.new).facts (given_back (S.storage store.new).index (Some result)) }
    ensures places { ReadsAsBefore (S.storage store.old).kept (S.storage store.old).index (S.storage store.new).index }
    ensures faults { (S.storage store.new).faults ≡ (S.storage store.old).faults }
    ensures settings { (S.storage store.new).settings ≡ (S.storage store.old).settings }
{
    let Ok(text) = text_of(store, native, arguments) else {
        unreachable!()
    };
    let array = program.site_kind(MADE_CHARACTERS);
    let string = program.site_kind(MADE_STRINGS);
    place_text(program, store, &text, array, string)
}
