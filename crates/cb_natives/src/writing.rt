// Pieces of texts that are written into arrays of chars.
ghost use Rattle.std.specs.Prelude.{◌≡◌, ◌≤◌, ◌<◌, ◌+◌, ◌^◌, length, pos, slice_get, IsTrue};
ghost use Rattle.cb_heap.specs.Kept.{content_at, contents_at, is_kept, is_number, with_content};
ghost use Rattle.cb_heap.specs.Reading.{serial_of};
ghost use Rattle.cb_link.specs.Numbers.{or_none};
ghost use Rattle.cb_machine.specs.Copying.{overwritten};
ghost use Rattle.cb_machine.specs.Strings.{unit_contents};
ghost use Rattle.cb_machine.specs.Texts.{dotted, replaced};
ghost use Rattle.cb_plain.specs.State.{Number};
ghost use Rattle.cb_plain.specs.Updates.{with_contents_in};
ghost use Rattle.cb_natives.specs.Given.{IsUnit};
ghost use Rattle.cb_natives.specs.Pieces.{IsPiece, IsText, MayWrite, piece_units, text_units};
ghost use Rattle.cb_natives.specs.Writing.{HoldsNumbers, MayRead, TextApart, unit_of_word, unit_read};

use crate::pieces::{Piece, Text};
use crate::reading::count;
use cb_heap::Store;
use cb_link::Program;

/// The units that part the names of packages in the names of classes, as class files have them and as `Class.getName` has them.
const SLASH: u16 = 47;

const DOT: u16 = 46;

/// How many units a piece has.
pub(crate) fn piece_size<S: Store>(program: &Program, store: &S, piece: &Piece) -> u64
    requires { IsPiece program.now (S.storage store.now).kept (S.storage store.now).index piece.now }
    ensures is { result ≡ length (piece_units program.now (S.storage store.now).kept (S.storage store.now).index piece.now) }
    ensures few { result < 2 ^ 62 }
{
    match piece {
        Piece::Range { count, .. } => u64::from(*count),
        Piece::Replaced { array, .. } => u64::from(count(store, *array)),
        Piece::Short { count, .. } => u64::from(*count),
        Piece::Name(kind) => name_of(program, *kind).len() as u64,
        Piece::Zeros(count) => u64::from(*count),
    }
}

/// How many units a text has.
pub(crate) fn text_size<S: Store>(program: &Program, store: &S, text: &Text) -> u64
    requires { IsText program.now (S.storage store.now).kept (S.storage store.now).index text.now }
    ensures { result ≡ length (text_units program.now (S.storage store.now).kept (S.storage store.now).index text.now) }
{
    let first = piece_size(program, store, &text.first);
    let second = piece_size(program, store, &text.second);
    let third = piece_size(program, store, &text.third);
    first + second + third
}

/// Writes a piece into an array of chars from an index on, and answers the index behind it. The units may be the array's own where they
/// go towards its end. Takes time in the units.
pub(crate) fn write_piece<S: Store>(
    program: &Program,
    store: &mut S,
    to: u64,
    from: u32,
    piece: &Piece,
) -> u32
    requires there { IsTrue (is_kept (S.storage store.old).kept (serial_of (S.storage store.old).index to)) }
    requires numbers { HoldsNumbers (S.storage store.old).kept (serial_of (S.storage store.old).index to) }
    requires piece { IsPiece program.now (S.storage store.old).kept (S.storage store.old).index piece.now }
    requires may { MayWrite (S.storage store.old).index (serial_of (S.storage store.old).index to) from piece.now }
    requires room { from + length (piece_units program.now (S.storage store.old).kept (S.storage store.old).index piece.now) ≤ length (contents_at (S.storage store.old).kept (serial_of (S.storage store.old).index to)) }
    requires few { length (contents_at (S.storage store.old).kept (serial_of (S.storage store.old).index to)) < 2 ^ 31 }
    ensures kept { (S.storage store.new).kept ≡ with_contents_in (S.storage store.old).kept (serial_of (S.storage store.old).index to) (overwritten (contents_at (S.storage store.old).kept (serial_of (S.storage store.old).index to)) from (unit_contents (piece_units program.now (S.storage store.old).kept (S.storage store.old).index piece.now))) }
    ensures end { result ≡ from + length (piece_units program.now (S.storage store.old).kept (S.storage store.old).index piece.now) }
    ensures places { (S.storage store.new).index ≡ (S.storage store.old).index }
    ensures facts { (S.storage store.new).facts ≡ (S.storage store.old).facts }
    ensures granted { (S.storage store.new).granted ≡ (S.storage store.old).granted }
    ensures faults { (S.storage store.new).faults ≡ (S.storage store.old).faults }
    ensures settings { (S.storage store.new).settings ≡ (S.storage store.old).settings }
{
    let size = piece_size(program, store, piece) as u32;
    let mut left = size;
    while left > 0 {
        left -= 1;
        write_unit(program, store, to, from + left, piece, left);
    }
    from + size
}

/// Writes a text into an array of chars from an index on, and answers the index behind it. Takes time in the units.
pub(crate) fn write_text<S: Store>(
    program: &Program,
    store: &mut S,
    to: u64,
    from: u32,
    text: &Text,
) -> u32
    requires there { IsTrue (is_kept (S.storage store.old).kept (serial_of (S.storage store.old).index to)) }
    requires numbers { HoldsNumbers (S.storage store.old).kept (serial_of (S.storage store.old).index to) }
    requires text { IsText program.now (S.storage store.old).kept (S.storage store.old).index text.now }
    requires apart { TextApart (S.storage store.old).index (serial_of (S.storage store.old).index to) text.now }
    requires room { from + length (text_units program.now (S.storage store.old).kept (S.storage store.old).index text.now) ≤ length (contents_at (S.storage store.old).kept (serial_of (S.storage store.old).index to)) }
    requires few { length (contents_at (S.storage store.old).kept (serial_of (S.storage store.old).index to)) < 2 ^ 31 }
    ensures kept { (S.storage store.new).kept ≡ with_contents_in (S.storage store.old).kept (serial_of (S.storage store.old).index to) (overwritten (contents_at (S.storage store.old).kept (serial_of (S.storage store.old).index to)) from (unit_contents (text_units program.now (S.storage store.old).kept (S.storage store.old).index text.now))) }
    ensures end { result ≡ from + length (text_units program.now (S.storage store.old).kept (S.storage store.old).index text.now) }
    ensures places { (S.storage store.new).index ≡ (S.storage store.old).index }
    ensures facts { (S.storage store.new).facts ≡ (S.storage store.old).facts }
    ensures granted { (S.storage store.new).granted ≡ (S.storage store.old).granted }
    ensures faults { (S.storage store.new).faults ≡ (S.storage store.old).faults }
    ensures settings { (S.storage store.new).settings ≡ (S.storage store.old).settings }
{
    let second = write_piece(program, store, to, from, &text.first);
    let third = write_piece(program, store, to, second, &text.second);
    write_piece(program, store, to, third, &text.third)
}

/// Puts a unit of a piece into a word that holds a number.
fn write_unit<S: Store>(
    program: &Program,
    store: &mut S,
    to: u64,
    word: u32,
    piece: &Piece,
    place: u32,
)
    requires number { IsTrue (is_number (content_at (S.storage store.old).kept (serial_of (S.storage store.old).index to) word)) }
    requires read { MayRead program.now (S.storage store.old).kept (S.storage store.old).index piece.now place }
    ensures kept { (S.storage store.new).kept ≡ with_content (S.storage store.old).kept (serial_of (S.storage store.old).index to) word (Number (pos (unit_read program.now (S.storage store.old).kept (S.storage store.old).index piece.now place))) }
    ensures places { (S.storage store.new).index ≡ (S.storage store.old).index }
    ensures facts { (S.storage store.new).facts ≡ (S.storage store.old).facts }
    ensures granted { (S.storage store.new).granted ≡ (S.storage store.old).granted }
    ensures faults { (S.storage store.new).faults ≡ (S.storage store.old).faults }
    ensures settings { (S.storage store.new).settings ≡ (S.storage store.old).settings }
{
    let unit = piece_unit(program, store, piece, place);
    store.put(to, word, u64::from(unit));
}

/// A unit of a piece.
fn piece_unit<S: Store>(program: &Program, store: &S, piece: &Piece, place: u32) -> u16
    requires { MayRead program.now (S.storage store.now).kept (S.storage store.now).index piece.now place }
    ensures { result ≡ unit_read program.now (S.storage store.now).kept (S.storage store.now).index piece.now place }
{
    match piece {
        Piece::Range { array, from, .. } => word_unit(store, *array, *from + place),
        Piece::Replaced { array, old, new } => {
            replaced(*old, *new, word_unit(store, *array, place))
        }
        Piece::Short { units, .. } => units[place as usize],
        Piece::Name(kind) => dotted(name_of(program, *kind)[place as usize]),
        Piece::Zeros(_) => 0,
    }
}

/// The unit that a word of an array of chars holds.
fn word_unit<S: Store>(store: &S, array: u64, word: u32) -> u16
    requires { IsUnit (content_at (S.storage store.now).kept (serial_of (S.storage store.now).index array) word) }
    ensures { result ≡ unit_of_word (content_at (S.storage store.now).kept (serial_of (S.storage store.now).index array) word) }
{
    store.get(array, word) as u16
}

/// A unit, or another one in place of the old one.
fn replaced(old: u16, new: u16, unit: u16) -> u16
    ensures { result ≡ replaced old new unit }
{
    if unit == old { new } else { unit }
}

/// A unit of the name of a class, with a dot in place of a slash.
fn dotted(unit: u16) -> u16
    ensures { result ≡ dotted unit }
{
    if unit == SLASH { DOT } else { unit }
}

/// The name of a kind, and none where there is no such kind.
fn name_of(program: &Program, kind: u32) -> &[u16]
    ensures { result.now ≡ or_none (slice_get program.now.kinds kind) }
{
    if kind < program.kind_count() {
        program.kind_name(kind)
    } else {
        &[]
    }
}
