// Strings that natives place, with their characters.
ghost use Rattle.std.specs.Prelude.{◌≡◌, ◌+◌, ◌<◌, ◌≤◌, ◌^◌, ◌++◌, ◌∷◌, [], false, length, slice_get, Some};
ghost use Rattle.cb_heap.specs.Reading.{serial_of};
ghost use Rattle.cb_heap.specs.Store.{ReadsAsBefore};
ghost use Rattle.cb_machine.specs.Sites.{made_characters, made_strings};
ghost use Rattle.cb_plain.specs.declared.shape.Shape.TheVariants.{Elements};
ghost use Rattle.cb_plain.specs.Requests.{spent, words_at};
ghost use Rattle.cb_plain.specs.State.{words_of};
ghost use Rattle.cb_natives.specs.MakingTexts.{MayPlaceText, new_array, with_made};
ghost use Rattle.cb_natives.specs.Pieces.{IsText, text_units};

use crate::pieces::Text;
use crate::writing::{text_size, write_text};
use cb_heap::Store;
use cb_link::Program;

/// The site of strings that natives make, and that of their characters.
pub(crate) const MADE_STRINGS: u32 = 8;

pub(crate) const MADE_CHARACTERS: u32 = 9;

/// Places a string of a text: first an array of chars, then an object of one word, which refers to it. Answers the place of the second.
/// Takes time in the units.
pub(crate) fn place_text<S: Store>(
    program: &Program,
    store: &mut S,
    text: &Text,
    array: u32,
    string: u32,
) -> u64
    requires text { IsText program.now (S.storage store.old).kept (S.storage store.old).index text.now }
    requires may { MayPlaceText (S.storage store.old).settings.shapes (S.storage store.old).granted (S.storage store.old).settings.allows (S.storage store.old).kept array string (length (text_units program.now (S.storage store.old).kept (S.storage store.old).index text.now)) }
    ensures kept { (S.storage store.new).kept ≡ with_made array string (text_units program.now (S.storage store.old).kept (S.storage store.old).index text.now) (S.storage store.old).kept }
    ensures serial { serial_of (S.storage store.new).index result ≡ length (S.storage store.old).kept + 1 + 1 }
    ensures places { ReadsAsBefore (S.storage store.old).kept (S.storage store.old).index (S.storage store.new).index }
    ensures facts { (S.storage store.new).facts ≡ S.rules.placed (S.rules.placed (S.storage store.old).facts made_characters (length (text_units program.now (S.storage store.old).kept (S.storage store.old).index text.now))) made_strings 1 }
    ensures faults { (S.storage store.new).faults ≡ (S.storage store.old).faults }
    ensures settings { (S.storage store.new).settings ≡ (S.storage store.old).settings }
{
    let characters = place_array(program, store, text, array);
    let at = store.place(MADE_STRINGS, string, 1);
    store.put_ref(at, 0, characters);
    at
}

/// Places an array of chars with the units of a text.
fn place_array<S: Store>(program: &Program, store: &mut S, text: &Text, kind: u32) -> u64
    requires text { IsText program.now (S.storage store.old).kept (S.storage store.old).index text.now }
    requires granted { words_of (length (text_units program.now (S.storage store.old).kept (S.storage store.old).index text.now)) ≤ words_at (S.storage store.old).granted made_characters }
    requires shape { slice_get (S.storage store.old).settings.shapes kind ≡ Some (Elements false) }
    requires serials { length (S.storage store.old).kept + 1 < 2 ^ 63 }
    requires few { length (text_units program.now (S.storage store.old).kept (S.storage store.old).index text.now) < 2 ^ 31 }
    ensures kept { (S.storage store.new).kept ≡ (S.storage store.old).kept ++ Some (new_array kind (text_units program.now (S.storage store.old).kept (S.storage store.old).index text.now)) ∷ [] }
    ensures serial { serial_of (S.storage store.new).index result ≡ length (S.storage store.old).kept + 1 }
    ensures places { ReadsAsBefore (S.storage store.old).kept (S.storage store.old).index (S.storage store.new).index }
    ensures facts { (S.storage store.new).facts ≡ S.rules.placed (S.storage store.old).facts made_characters (length (text_units program.now (S.storage store.old).kept (S.storage store.old).index text.now)) }
    ensures granted { (S.storage store.new).granted ≡ spent (S.storage store.old).granted made_characters (words_of (length (text_units program.now (S.storage store.old).kept (S.storage store.old).index text.now))) }
    ensures faults { (S.storage store.new).faults ≡ (S.storage store.old).faults }
    ensures settings { (S.storage store.new).settings ≡ (S.storage store.old).settings }
{
    let size = text_size(program, store, text) as u32;
    let array = store.place(MADE_CHARACTERS, kind, size);
    write_text(program, store, array, 0, text);
    array
}
