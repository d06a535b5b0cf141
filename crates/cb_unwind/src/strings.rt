// The objects of constant strings.
ghost use Rattle.cb_heap.specs.Storage.{view_in};
ghost use Rattle.std.specs.Prelude.{◌≡◌, ◌<◌, length};
ghost use Rattle.cb_heap.specs.Reading.{seen, serial_of};
ghost use Rattle.cb_link.specs.Having.{site_kinds};
ghost use Rattle.cb_machine.specs.Sites.{constant_characters, constant_strings};
ghost use Rattle.cb_plain.specs.Requests.{spent};
ghost use Rattle.cb_plain.specs.State.{words_of};
ghost use Rattle.cb_unwind.specs.Strings.{IsNew, MayEnter, constant_sites, units_of, with_constant};

use cb_frames::Roots;
use cb_heap::{Store, TextSites, place_text};
use cb_link::Program;
use cb_plain::Table;

/// The site of constant strings.
const CONSTANT_STRINGS: u32 = 5;

/// The site of their characters.
const CONSTANT_CHARACTERS: u32 = 6;

/// The place of the object of a text of the program (JLS §3.10.5, JVMS §5.1): the one that the table of constants has, or a new one, for
/// which there has to be room, and which is entered there. Takes time in the units of a new one.
pub fn constant_string<S: Store>(
    program: &Program,
    store: &mut S,
    roots: &mut Roots,
    text: u32,
) -> u64
    requires text { text < length program.now.constants }
    requires table { text < length roots.old.roots.tables.constants }
    requires may { IsNew roots.old.roots text → MayEnter program.now text (S.storage store.old).settings.shapes
        (S.storage store.old).granted (S.storage store.old).settings.allows (view_in (S.storage store.old)
        roots.old.roots) }
    ensures behind { with_constant program.now text (view_in (S.storage store.old)
        roots.old.roots)
        ≡ (
          serial_of (S.storage store.new).index result,
          view_in (S.storage store.new)
              roots.new.roots,
        ) }
    ensures limit { roots.new.limit ≡ roots.old.limit }
    ensures same { (IsNew roots.old.roots text → ⊥) → store.new ≡ store.old }
    ensures facts { IsNew roots.old.roots text → (S.storage store.new).facts
        ≡ S.rules.placed (S.rules.placed (S.storage store.old).facts constant_characters
        (length (units_of program.now text))) constant_strings 1 }
    ensures granted { IsNew roots.old.roots text → (S.storage store.new).granted
        ≡ spent (spent (S.storage store.old).granted constant_characters
        (words_of (length (units_of program.now text)))) constant_strings (words_of 1) }
    ensures faults { (S.storage store.new).faults ≡ (S.storage store.old).faults }
    ensures settings { (S.storage store.new).settings ≡ (S.storage store.old).settings }
{
    let known = roots.table(Table::Constants, text);
    if known != 0 {
        return known;
    }
    let at = place_text(store, sites_of(program), program.constant(text));
    roots.set_table(Table::Constants, text, at);
    at
}

/// The sites and kinds of constant strings and their characters.
fn sites_of(program: &Program) -> TextSites
    requires { constant_characters < length (site_kinds program.now) }
    ensures { result ≡ constant_sites program.now }
{
    TextSites {
        site: CONSTANT_STRINGS,
        kind: program.site_kind(CONSTANT_STRINGS),
        characters: CONSTANT_CHARACTERS,
        array: program.site_kind(CONSTANT_CHARACTERS),
    }
}
