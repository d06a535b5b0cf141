// Texts of strings and of builders that are changed.
ghost use Rattle.std.specs.Prelude.{◌≡◌, ◌+◌, ◌-◌, ◌<◌, ◌≤◌, ◌^◌, ◌++◌, ◌∷◌, [], false, length, slice_get, IsTrue, Some};
ghost use Rattle.cb_heap.specs.Follows.{Follows};
ghost use Rattle.cb_heap.specs.Kept.{is_kept};
ghost use Rattle.cb_heap.specs.Reading.{serial_of};
ghost use Rattle.cb_heap.specs.Store.{ReadsAsBefore};
ghost use Rattle.cb_link.specs.Having.{site_kinds};
ghost use Rattle.cb_machine.specs.Machine.{kind_of_site};
ghost use Rattle.cb_machine.specs.Plans.{object_of};
ghost use Rattle.cb_plain.specs.Requests.{words_at};
ghost use Rattle.cb_plain.specs.State.{words_of};
ghost use Rattle.cb_plain.specs.declared.shape.Shape.TheVariants.{Elements};
ghost use Rattle.cb_natives.specs.Following.{FollowsFrom};
ghost use Rattle.cb_natives.specs.Given.{HoldsUnits};
ghost use Rattle.cb_natives.specs.Making.{HasRoom, MayMake, facts_behind};
ghost use Rattle.cb_natives.specs.MakingOwn.{Counts, HasOwn, MayChange, MayDelete, MayPlace, MayPut, counting, deleted, made_by, objects_behind, referring, roomy, wanted_by, written};
ghost use Rattle.cb_natives.specs.Pieces.{IsText, piece_units, text_units};
ghost use Rattle.cb_natives.specs.declared.own_change.Change.TheVariants as changes;

use crate::own_change::Change;
use crate::pieces::{Piece, Text};
use crate::writing::{write_piece, write_text};
use cb_heap::Store;
use cb_link::Program;

/// The sites of the characters of strings that natives make, and of those of builders.
pub(crate) const MADE_CHARACTERS: u32 = 9;

pub(crate) const BUILDER_CHARACTERS: u32 = 10;

/// The slots in which a string or a builder has its array, and a builder how many of its units count.
const CHARS: u32 = 0;

const COUNT: u32 = 1;

/// Places an array of chars at a site, with so much room and the units of a text in front, and answers its place. Takes time in the room.
fn place_chars<S: Store>(program: &Program, store: &mut S, site: u32, text: &Text, room: u32) -> u64
    requires site { site < length (site_kinds program.now) }
    requires granted { words_of room ≤ words_at (S.storage store.old).granted site }
    requires shape { slice_get (S.storage store.old).settings.shapes (kind_of_site program.now site) ≡ Some (Elements false) }
    requires serials { length (S.storage store.old).kept + 1 < 2 ^ 63 }
    requires text { IsText program.now (S.storage store.old).kept (S.storage store.old).index text.now }
    requires fits { length (text_units program.now (S.storage store.old).kept (S.storage store.old).index text.now) ≤ room }
    requires few { room < 2 ^ 31 }
    ensures kept { (S.storage store.new).kept ≡ (S.storage store.old).kept ++ Some (object_of site (kind_of_site program.now site) (roomy (text_units program.now (S.storage store.old).kept (S.storage store.old).index text.now) room)) ∷ [] }
    ensures serial { serial_of (S.storage store.new).index result ≡ length (S.storage store.old).kept + 1 }
    ensures places { ReadsAsBefore (S.storage store.old).kept (S.storage store.old).index (S.storage store.new).index }
    ensures facts { (S.storage store.new).facts ≡ S.rules.placed (S.storage store.old).facts site room }
    ensures faults { (S.storage store.new).faults ≡ (S.storage store.old).faults }
    ensures settings { (S.storage store.new).settings ≡ (S.storage store.old).settings }
{
    let at = store.place(site, program.site_kind(site), room);
    write_text(program, store, at, 0, text);
    at
}

/// An object refers to a new array of chars, with so much room and the units of a text in front. Takes time in the room.
fn refer<S: Store>(program: &Program, store: &mut S, at: u64, site: u32, text: &Text, room: u32)
    requires may { MayPlace program.now (S.storage store.old).kept (S.storage store.old).index (serial_of (S.storage store.old).index at) text.now room }
    requires site { site < length (site_kinds program.now) }
    requires granted { words_of room ≤ words_at (S.storage store.old).granted site }
    requires shape { slice_get (S.storage store.old).settings.shapes (kind_of_site program.now site) ≡ Some (Elements false) }
    requires serials { length (S.storage store.old).kept + 1 < 2 ^ 63 }
    requires follows { FollowsFrom (S.storage store.old).settings.allows (referring (S.storage store.old).kept (serial_of (S.storage store.old).index at) (length (S.storage store.old).kept + 1) ++ Some (object_of site (kind_of_site program.now site) (roomy (text_units program.now (S.storage store.old).kept (S.storage store.old).index text.now) room)) ∷ []) (serial_of (S.storage store.old).index at) }
    ensures kept { (S.storage store.new).kept ≡ referring (S.storage store.old).kept (serial_of (S.storage store.old).index at) (length (S.storage store.old).kept + 1) ++ Some (object_of site (kind_of_site program.now site) (roomy (text_units program.now (S.storage store.old).kept (S.storage store.old).index text.now) room)) ∷ [] }
    ensures places { ReadsAsBefore (S.storage store.old).kept (S.storage store.old).index (S.storage store.new).index }
    ensures facts { (S.storage store.new).facts ≡ S.rules.placed (S.storage store.old).facts site room }
    ensures faults { (S.storage store.new).faults ≡ (S.storage store.old).faults }
    ensures settings { (S.storage store.new).settings ≡ (S.storage store.old).settings }
{
    let array = place_chars(program, store, site, text, room);
    store.put_ref(at, CHARS, array);
}

/// So many units of a builder count.
fn put_count<S: Store>(store: &mut S, at: u64, count: u32)
    requires { Counts (S.storage store.old).kept (serial_of (S.storage store.old).index at) }
    ensures kept { (S.storage store.new).kept ≡ counting (S.storage store.old).kept (serial_of (S.storage store.old).index at) count }
    ensures places { (S.storage store.new).index ≡ (S.storage store.old).index }
    ensures facts { (S.storage store.new).facts ≡ (S.storage store.old).facts }
    ensures faults { (S.storage store.new).faults ≡ (S.storage store.old).faults }
    ensures settings { (S.storage store.new).settings ≡ (S.storage store.old).settings }
{
    store.put(at, COUNT, u64::from(count));
}

/// A string gets a new array.
fn set_chars<S: Store>(program: &Program, store: &mut S, at: u64, text: &Text, size: u32)
    requires may { MayChange program.now (S.storage store.old).kept (S.storage store.old).index (serial_of (S.storage store.old).index at) (changes.Sets text.now size) }
    requires room { HasRoom (S.storage store.old).kept (wanted_by (changes.Sets text.now size)) (S.storage store.old).granted }
    requires shaped { MayMake program.now (S.storage store.old).settings.shapes }
    requires follows { Follows (S.storage store.old).settings.allows (objects_behind (made_by program.now (S.storage store.old).kept (S.storage store.old).index (serial_of (S.storage store.old).index at) (changes.Sets text.now size))) }
    ensures kept { (S.storage store.new).kept ≡ objects_behind (made_by program.now (S.storage store.old).kept (S.storage store.old).index (serial_of (S.storage store.old).index at) (changes.Sets text.now size)) }
    ensures places { ReadsAsBefore (S.storage store.old).kept (S.storage store.old).index (S.storage store.new).index }
    ensures facts { (S.storage store.new).facts ≡ facts_behind S.rules (S.storage store.old).facts (made_by program.now (S.storage store.old).kept (S.storage store.old).index (serial_of (S.storage store.old).index at) (changes.Sets text.now size)).placed }
    ensures faults { (S.storage store.new).faults ≡ (S.storage store.old).faults }
    ensures settings { (S.storage store.new).settings ≡ (S.storage store.old).settings }
{
    refer(program, store, at, MADE_CHARACTERS, text, size);
}

/// A builder gets a new array, of which so many units count.
fn build_chars<S: Store>(
    program: &Program,
    store: &mut S,
    at: u64,
    text: &Text,
    count: u32,
    room: u32,
)
    requires may { MayChange program.now (S.storage store.old).kept (S.storage store.old).index (serial_of (S.storage store.old).index at) (changes.Builds text.now count room) }
    requires room { HasRoom (S.storage store.old).kept (wanted_by (changes.Builds text.now count room)) (S.storage store.old).granted }
    requires shaped { MayMake program.now (S.storage store.old).settings.shapes }
    requires follows { Follows (S.storage store.old).settings.allows (objects_behind (made_by program.now (S.storage store.old).kept (S.storage store.old).index (serial_of (S.storage store.old).index at) (changes.Builds text.now count room))) }
    ensures kept { (S.storage store.new).kept ≡ objects_behind (made_by program.now (S.storage store.old).kept (S.storage store.old).index (serial_of (S.storage store.old).index at) (changes.Builds text.now count room)) }
    ensures places { ReadsAsBefore (S.storage store.old).kept (S.storage store.old).index (S.storage store.new).index }
    ensures facts { (S.storage store.new).facts ≡ facts_behind S.rules (S.storage store.old).facts (made_by program.now (S.storage store.old).kept (S.storage store.old).index (serial_of (S.storage store.old).index at) (changes.Builds text.now count room)).placed }
    ensures faults { (S.storage store.new).faults ≡ (S.storage store.old).faults }
    ensures settings { (S.storage store.new).settings ≡ (S.storage store.old).settings }
{
    refer(program, store, at, BUILDER_CHARACTERS, text, room);
    put_count(store, at, count);
}

/// A piece is written into a builder's array, of which so many units count then.
fn write_chars<S: Store>(
    program: &Program,
    store: &mut S,
    at: u64,
    array: u64,
    from: u32,
    piece: &Piece,
    count: u32,
)
    requires own { HasOwn (S.storage store.old).kept (serial_of (S.storage store.old).index at) (serial_of (S.storage store.old).index array) }
    requires may { MayPut program.now (S.storage store.old).kept (S.storage store.old).index (serial_of (S.storage store.old).index array) from piece.now }
    ensures kept { (S.storage store.new).kept ≡ counting (written (S.storage store.old).kept (serial_of (S.storage store.old).index array) from (piece_units program.now (S.storage store.old).kept (S.storage store.old).index piece.now)) (serial_of (S.storage store.old).index at) count }
    ensures places { (S.storage store.new).index ≡ (S.storage store.old).index }
    ensures facts { (S.storage store.new).facts ≡ (S.storage store.old).facts }
    ensures faults { (S.storage store.new).faults ≡ (S.storage store.old).faults }
    ensures settings { (S.storage store.new).settings ≡ (S.storage store.old).settings }
{
    write_piece(program, store, array, from, piece);
    put_count(store, at, count);
}

/// Moves the units behind a place of an array to the front by one, up to an index, whose word stays as it is. Takes time in these.
fn close_up<S: Store>(store: &mut S, array: u64, place: u32, count: u32)
    requires kept { IsTrue (is_kept (S.storage store.old).kept (serial_of (S.storage store.old).index array)) }
    requires units { HoldsUnits (S.storage store.old).kept (serial_of (S.storage store.old).index array) }
    requires may { MayDelete (S.storage store.old).kept (serial_of (S.storage store.old).index array) place count }
    ensures kept { (S.storage store.new).kept ≡ deleted (S.storage store.old).kept (serial_of (S.storage store.old).index array) place count }
    ensures places { (S.storage store.new).index ≡ (S.storage store.old).index }
    ensures facts { (S.storage store.new).facts ≡ (S.storage store.old).facts }
    ensures faults { (S.storage store.new).faults ≡ (S.storage store.old).faults }
    ensures settings { (S.storage store.new).settings ≡ (S.storage store.old).settings }
{
    for i in place..count {
        let unit = store.get(array, i + 1);
        store.put(array, i, unit);
    }
}

/// A unit of a builder's array is left out. So many count then.
fn delete_char<S: Store>(store: &mut S, at: u64, array: u64, place: u32, count: u32)
    requires own { HasOwn (S.storage store.old).kept (serial_of (S.storage store.old).index at) (serial_of (S.storage store.old).index array) }
    requires may { MayDelete (S.storage store.old).kept (serial_of (S.storage store.old).index array) place count }
    ensures kept { (S.storage store.new).kept ≡ counting (deleted (S.storage store.old).kept (serial_of (S.storage store.old).index array) place count) (serial_of (S.storage store.old).index at) count }
    ensures places { (S.storage store.new).index ≡ (S.storage store.old).index }
    ensures facts { (S.storage store.new).facts ≡ (S.storage store.old).facts }
    ensures faults { (S.storage store.new).faults ≡ (S.storage store.old).faults }
    ensures settings { (S.storage store.new).settings ≡ (S.storage store.old).settings }
{
    close_up(store, array, place, count);
    put_count(store, at, count);
}

/// Changes the text of the object at a place. Takes time in the units that are written.
pub(crate) fn make_change<S: Store>(program: &Program, store: &mut S, at: u64, change: &Change)
    requires may { MayChange program.now (S.storage store.old).kept (S.storage store.old).index (serial_of (S.storage store.old).index at) change.now }
    requires room { (wanted_by change.now ≡ [] → ⊥) → HasRoom (S.storage store.old).kept (wanted_by change.now) (S.storage store.old).granted }
    requires shaped { MayMake program.now (S.storage store.old).settings.shapes }
    requires follows { Follows (S.storage store.old).settings.allows (objects_behind (made_by program.now (S.storage store.old).kept (S.storage store.old).index (serial_of (S.storage store.old).index at) change.now)) }
    ensures kept { (S.storage store.new).kept ≡ objects_behind (made_by program.now (S.storage store.old).kept (S.storage store.old).index (serial_of (S.storage store.old).index at) change.now) }
    ensures places { ReadsAsBefore (S.storage store.old).kept (S.storage store.old).index (S.storage store.new).index }
    ensures facts { (S.storage store.new).facts ≡ facts_behind S.rules (S.storage store.old).facts (made_by program.now (S.storage store.old).kept (S.storage store.old).index (serial_of (S.storage store.old).index at) change.now).placed }
    ensures faults { (S.storage store.new).faults ≡ (S.storage store.old).faults }
    ensures settings { (S.storage store.new).settings ≡ (S.storage store.old).settings }
{
    match change {
        Change::Sets { text, size } => set_chars(program, store, at, text, *size),
        Change::Builds { text, count, room } => {
            build_chars(program, store, at, text, *count, *room)
        }
        Change::Writes {
            array,
            from,
            piece,
            count,
        } => write_chars(program, store, at, *array, *from, piece, *count),
        Change::Deletes {
            array,
            place,
            count,
        } => delete_char(store, at, *array, *place, *count),
    }
}
