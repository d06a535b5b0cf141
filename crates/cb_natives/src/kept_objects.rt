// Natives that give an object from a table, or a new one, which they enter where the table has a place for it (Java SE 8 API, java.lang; JLS
// §5.1.7).
ghost use Rattle.cb_heap.specs.Storage.{view_in};
ghost use Rattle.std.specs.Prelude.{◌≡◌, ◌+◌, ◌++◌, ◌<◌, ◌≤◌, ◌^◌, ◌∷◌, [], false, length, List, map, slice_get, true, IsTrue, OnOk, Some};
ghost use Rattle.std.specs.List.{AllByRecursion, list_all};
ghost use Rattle.cb_frames.specs.Limited.{with_roots};
ghost use Rattle.cb_heap.specs.Closed.{IsClosed};
ghost use Rattle.cb_heap.specs.Kept.{is_held};
ghost use Rattle.cb_heap.specs.Reading.{read_roots, read_value, serial_of};
ghost use Rattle.cb_heap.specs.Store.{ReadsAsBefore};
ghost use Rattle.cb_machine.specs.Plans.{object_of};
ghost use Rattle.cb_plain.specs.Reach.{root_references};
ghost use Rattle.cb_plain.specs.Requests.{words_at};
ghost use Rattle.cb_plain.specs.State.{Number, words_of};
ghost use Rattle.cb_plain.specs.declared.shape.Shape.TheVariants.{Fields};
ghost use Rattle.cb_plain.specs.declared.want.Want.{Want};
ghost use Rattle.cb_natives.specs.Given.{AreGiven, have_sorts, roles, sorts_of};
ghost use Rattle.cb_natives.specs.Making.{Asks, HasRoom, MayMake, Performs, Planned, given_back};
ghost use Rattle.cb_natives.specs.MakingKept.{HasKinds, HasTables, IsPlaced, MayPlace, entered, found_in, makes_kept, with_new};

use crate::Exception;
use crate::kept_entries::{Entry, entry_of};
use crate::low_bits::word_of;
use cb_frames::Roots;
use cb_heap::Store;
use cb_library::Native;
use cb_link::Program;
use cb_plain::{Request, Value};

/// The words of an object that holds a number alone, with its header and without.
const WORDS: u64 = 4;

const SIZE: u32 = 1;

/// The slot in which it has its number.
const VALUE: u32 = 0;

/// Whether a native gives an object from a table.
pub(crate) fn makes_kept(native: Native) -> bool
    ensures { result ≡ makes_kept native }
{
    matches!(
        native,
        Native::ObjectGetClass
            | Native::IntegerValueOf
            | Native::LongValueOf
            | Native::CharacterValueOf
            | Native::BooleanValueOf
    )
}

/// Asks for the room of the object that a native gives, if the table has none yet, or answers a NullPointerException.
pub(crate) fn plan_kept<S: Store>(
    program: &Program,
    store: &S,
    roots: &Roots,
    native: Native,
    arguments: &[Value],
    request: &mut Request,
) -> Result<(), Exception>
    requires makes { makes_kept native ≡ true }
    requires sorts { have_sorts (sorts_of native) arguments.now ≡ true }
    requires given { AreGiven (S.storage store.now).kept (roles native) (map (read_value
        (S.storage store.now).index) arguments.now) }
    requires tables { HasTables program.now roots.now.roots.tables }
    requires kinds { HasKinds program.now (S.storage store.now).kept }
    ensures planned { Planned program.now (view_in (S.storage store.now) roots.now.roots) native (map (read_value (S.storage store.now).index) arguments.now) request.new result }
    ensures sites { OnOk result (AllByRecursion (λ (want : Want). want.site < 32) request.new) }
{
    let _ = program;
    request.clear();
    match entry_of(store, native, arguments) {
        Ok(entry) => {
            if found(roots, entry) == 0 {
                request.add(entry.site, WORDS);
            }
            Ok(())
        }
        Err(exception) => Err(exception),
    }
}

/// Performs a native that gives an object from a table, which it places and enters there if there is none yet.
pub(crate) fn run_kept<S: Store>(
    program: &Program,
    store: &mut S,
    roots: &mut Roots,
    native: Native,
    arguments: &[Value],
) -> u64
    ghost wants: { List Want }
    requires makes { makes_kept native ≡ true }
    requires sorts { have_sorts (sorts_of native) arguments.now ≡ true }
    requires given { AreGiven (S.storage store.old).kept (roles native) (map (read_value
        (S.storage store.old).index) arguments.now) }
    requires tables { HasTables program.now roots.old.roots.tables }
    requires kinds { HasKinds program.now (S.storage store.old).kept }
    requires closed { IsClosed (view_in (S.storage store.old) roots.old.roots) }
    requires asks { Asks program.now (view_in (S.storage store.old) roots.old.roots) native (map (read_value (S.storage store.old).index) arguments.now) wants }
    requires room { (wants ≡ [] → ⊥) → HasRoom (S.storage store.old).kept wants (S.storage store.old).granted }
    requires shaped { MayMake program.now (S.storage store.old).settings.shapes }
    ensures made { Performs S.rules program.now native (map (read_value (S.storage store.old).index) arguments.now)
        (view_in (S.storage store.old) roots.old.roots) (S.storage store.old).facts (view_in (S.storage store.new) roots.new.roots) (S.storage store.new).facts
        (given_back (S.storage store.new).index (Some result)) }
    ensures frames { roots.new.roots.frames ≡ roots.old.roots.frames }
    ensures limit { roots.new.limit ≡ roots.old.limit }
    ensures places { ReadsAsBefore (S.storage store.old).kept (S.storage store.old).index (S.storage store.new).index }
    ensures faults { (S.storage store.new).faults ≡ (S.storage store.old).faults }
    ensures settings { (S.storage store.new).settings ≡ (S.storage store.old).settings }
{
    let Ok(entry) = entry_of(store, native, arguments) else {
        unreachable!()
    };
    let old = found(roots, entry);
    if old != 0 {
        return old;
    }
    place_entry(program, store, roots, entry)
}

/// Places the object of an entry, enters it where the table has a place for it, and answers its place.
fn place_entry<S: Store>(program: &Program, store: &mut S, roots: &mut Roots, entry: Entry) -> u64
    requires granted { words_of 1 ≤ words_at (S.storage store.old).granted entry.site }
    requires may { MayPlace program.now (S.storage store.old).settings.shapes entry.site }
    requires serials { length (S.storage store.old).kept + 1 < 2 ^ 63 }
    requires held { IsTrue (list_all (is_held (S.storage store.old).kept) (root_references (read_roots
        (S.storage store.old).index roots.old.roots))) }
    requires table { IsPlaced roots.old.roots.tables entry }
    ensures serial { serial_of (S.storage store.new).index result ≡ length (S.storage store.old).kept + 1 }
    ensures view { view_in (S.storage store.new) roots.new.roots ≡ with_new program.now entry (view_in (S.storage store.old) roots.old.roots) }
    ensures frames { roots.new.roots.frames ≡ roots.old.roots.frames }
    ensures limit { roots.new.limit ≡ roots.old.limit }
    ensures places { ReadsAsBefore (S.storage store.old).kept (S.storage store.old).index (S.storage store.new).index }
    ensures facts { (S.storage store.new).facts ≡ S.rules.placed (S.storage store.old).facts entry.site 1 }
    ensures faults { (S.storage store.new).faults ≡ (S.storage store.old).faults }
    ensures settings { (S.storage store.new).settings ≡ (S.storage store.old).settings }
{
    let at = place_number(
        store,
        entry.site,
        program.site_kind(entry.site),
        entry.number,
    );
    enter(roots, entry, at);
    at
}

/// Places an object of one word, which holds a number, and answers its place.
fn place_number<S: Store>(store: &mut S, site: u32, kind: u32, number: i64) -> u64
    requires granted { words_of 1 ≤ words_at (S.storage store.old).granted site }
    requires shape { slice_get (S.storage store.old).settings.shapes kind ≡ Some (Fields (false ∷ [])) }
    requires serials { length (S.storage store.old).kept + 1 < 2 ^ 63 }
    ensures kept { (S.storage store.new).kept ≡ (S.storage store.old).kept ++ Some (object_of site kind (Number number ∷ [])) ∷ [] }
    ensures serial { serial_of (S.storage store.new).index result ≡ length (S.storage store.old).kept + 1 }
    ensures places { ReadsAsBefore (S.storage store.old).kept (S.storage store.old).index (S.storage store.new).index }
    ensures facts { (S.storage store.new).facts ≡ S.rules.placed (S.storage store.old).facts site 1 }
    ensures faults { (S.storage store.new).faults ≡ (S.storage store.old).faults }
    ensures settings { (S.storage store.new).settings ≡ (S.storage store.old).settings }
{
    let at = store.place(site, kind, SIZE);
    store.put(at, VALUE, word_of(number));
    at
}

/// The object that the table of an entry has, 0 where there is none.
fn found(roots: &Roots, entry: Entry) -> u64
    requires { IsPlaced roots.now.roots.tables entry }
    ensures { result ≡ found_in roots.now.roots.tables entry }
{
    match entry.place {
        Some(place) => roots.table(entry.table, place),
        None => 0,
    }
}

/// Enters the object of an entry, where the table has a place for it.
fn enter(roots: &mut Roots, entry: Entry, at: u64)
    requires { IsPlaced roots.old.roots.tables entry }
    ensures { roots.new ≡ with_roots roots.old (entered roots.old.roots entry at) }
{
    if let Some(place) = entry.place {
        roots.set_table(entry.table, place, at);
    }
}
