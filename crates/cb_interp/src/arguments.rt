// The arguments of a run.
ghost use Rattle.std.specs.Prelude.{◌≡◌, ◌+◌, ◌*◌, ◌<◌, ◌≤◌, ◌^◌, ◌++◌, [], length, option_map, true, Some};
ghost use Rattle.std.specs.List.{AllByRecursion, flat_map, fold};
ghost use Rattle.cb_heap.specs.Reading.{serial_of};
ghost use Rattle.cb_heap.specs.Store.{ReadsAsBefore};
ghost use Rattle.cb_link.specs.Having.{site_kinds};
ghost use Rattle.cb_machine.specs.Performing.{most_elements};
ghost use Rattle.cb_machine.specs.Sites.{argument_characters, argument_strings, arguments};
ghost use Rattle.cb_plain.specs.Requests.{add_want, spent, words_at};
ghost use Rattle.cb_plain.specs.State.{words_of};
ghost use Rattle.cb_plain.specs.Updates.{object_in};
ghost use Rattle.cb_safety.specs.Strings.{IsText};
ghost use Rattle.cb_interp.specs.Arguments.{AskedFor, Covers, HasArray, MayHold, argument_sites, knows_text, knows_texts, stream_wants, text_wants, with_argument_text, with_texts};

use cb_heap::{Store, TextSites, place_text};
use cb_link::Program;
use cb_plain::Request;
use cb_text::Units;

/// The site of the strings, and that of the arrays of their characters.
const ARGUMENT_STRINGS: u32 = 1;

const ARGUMENT_CHARACTERS: u32 = 2;

/// The words of an array beside its elements, and those of a string.
const HEADER_WORDS: u64 = 3;

const STRING_WORDS: u64 = 4;

/// Asks for room for the strings of texts, behind what was asked for. Takes time in the texts.
pub(crate) fn ask_texts(request: &mut Request, texts: &[Units])
    requires asked { AskedFor request.old }
    requires short { AllByRecursion IsText texts.now }
    ensures wants { request.new ≡ fold add_want request.old (flat_map text_wants texts.now) }
    ensures few { length request.new < 4 }
{
    for (i, text) in texts.iter().enumerate() {
        ask_text(request, text);
    }
}

/// Asks for room for the string of a text.
fn ask_text(request: &mut Request, text: &Units)
    requires asked { AskedFor request.old }
    requires short { length text.now ≤ most_elements }
    ensures { request.new ≡ fold add_want request.old (text_wants text.now) }
{
    request.add(ARGUMENT_CHARACTERS, HEADER_WORDS + text.len() as u64);
    request.add(ARGUMENT_STRINGS, STRING_WORDS);
}

/// Places the strings of texts behind the array of arguments, which is alone, and puts them into it. There is room for them, and for the
/// streams of System. Takes time in the texts.
pub(crate) fn place_texts<S: Store>(program: &Program, store: &mut S, array: u64, texts: &[Units])
    requires fits { MayHold program.now (S.storage store.old).settings.shapes }
    requires granted { Covers (S.storage store.old).granted (flat_map text_wants texts.now
        ++ stream_wants) }
    requires there { HasArray (S.storage store.old).kept (length texts.now) }
    requires alone { length (S.storage store.old).kept ≡ 1 }
    requires array { serial_of (S.storage store.old).index array ≡ 1 }
    requires few { length texts.now ≤ most_elements }
    requires short { AllByRecursion IsText texts.now }
    requires sited { option_map (λ object. object.site) (object_in (S.storage store.old).kept 1) ≡ Some arguments }
    requires refers { 0 < length texts.now → (S.storage store.old).settings.allows arguments argument_strings ≡ true }
    requires holds { 0 < length texts.now → (S.storage store.old).settings.allows argument_strings argument_characters ≡ true }
    ensures kept { (S.storage store.new).kept ≡ with_texts program.now (S.storage store.old).kept 0 texts.now }
    ensures there { HasArray (S.storage store.new).kept (length texts.now) }
    ensures long { length (S.storage store.new).kept ≡ 2 * length texts.now + 1 }
    ensures array { serial_of (S.storage store.new).index array ≡ 1 }
    ensures places { ReadsAsBefore [] (S.storage store.old).index (S.storage store.new).index }
    ensures facts { (S.storage store.new).facts ≡ knows_texts S.rules (S.storage store.old).facts texts.now }
    ensures granted { Covers (S.storage store.new).granted stream_wants }
    ensures faults { (S.storage store.new).faults ≡ (S.storage store.old).faults }
    ensures settings { (S.storage store.new).settings ≡ (S.storage store.old).settings }
{
    for (i, text) in texts.iter().enumerate() {
        place_argument(program, store, array, i as u32, text);
    }
}

/// Places the string of a text, and puts it into a word of the array, which is the first object.
fn place_argument<S: Store>(program: &Program, store: &mut S, array: u64, turn: u32, text: &Units)
    requires fits { MayHold program.now (S.storage store.old).settings.shapes }
    requires characters { words_of (length text.now)
        ≤ words_at (S.storage store.old).granted argument_characters }
    requires string { words_of 1 ≤ words_at (spent (S.storage store.old).granted argument_characters
        (words_of (length text.now))) argument_strings }
    requires there { HasArray (S.storage store.old).kept (turn + 1) }
    requires array { serial_of (S.storage store.old).index array ≡ 1 }
    requires serials { length (S.storage store.old).kept + 2 < 2 ^ 63 }
    requires short { length text.now < 2 ^ 32 }
    requires sited { option_map (λ object. object.site) (object_in (S.storage store.old).kept 1) ≡ Some arguments }
    requires refers { (S.storage store.old).settings.allows arguments argument_strings ≡ true }
    requires holds { (S.storage store.old).settings.allows argument_strings argument_characters ≡ true }
    ensures kept { (S.storage store.new).kept ≡ with_argument_text program.now (S.storage store.old).kept turn
        text.now }
    ensures array { serial_of (S.storage store.new).index array ≡ 1 }
    ensures places { ReadsAsBefore (S.storage store.old).kept (S.storage store.old).index (S.storage store.new).index }
    ensures facts { (S.storage store.new).facts ≡ knows_text S.rules (S.storage store.old).facts text.now }
    ensures granted { (S.storage store.new).granted ≡ spent (spent (S.storage store.old).granted argument_characters
        (words_of (length text.now))) argument_strings (words_of 1) }
    ensures faults { (S.storage store.new).faults ≡ (S.storage store.old).faults }
    ensures settings { (S.storage store.new).settings ≡ (S.storage store.old).settings }
{
    let sites = argument_sites(program);
    let at = place_text(store, sites, text.as_slice());
    store.put_ref(array, turn, at);
}

/// Where the strings of arguments are placed.
fn argument_sites(program: &Program) -> TextSites
    requires strings { argument_strings < length (site_kinds program.now) }
    requires characters { argument_characters < length (site_kinds program.now) }
    ensures { result ≡ argument_sites program.now }
{
    TextSites {
        site: ARGUMENT_STRINGS,
        kind: program.site_kind(ARGUMENT_STRINGS),
        characters: ARGUMENT_CHARACTERS,
        array: program.site_kind(ARGUMENT_CHARACTERS),
    }
}
