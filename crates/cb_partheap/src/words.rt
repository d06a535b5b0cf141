// Words of objects by their places, whatever else the words of a heap are.
ghost use Rattle.std.specs.Prelude.{◌≡◌, ◌+◌, ◌-◌, ◌*◌, ◌/◌, ◌%◌, ◌<◌, ◌≤◌, ◌^◌, length, slice_get, slice_set, IsTrue, Some};
ghost use Rattle.cb_plain.specs.State.{words_of};
ghost use Rattle.cb_heap.specs.Shaped.{has_size};
ghost use Rattle.cb_blocks.specs.Parted.{IsParted, with_words};
ghost use Rattle.cb_blocks.specs.Rows.{row};
ghost use Rattle.cb_raw.specs.Words.{copied};
ghost use Rattle.cb_partheap.specs.Headers.{IsHeader, IsShaped, IsWord};
ghost use Rattle.cb_partheap.specs.Heaps.{marks_at};
ghost use Rattle.cb_partheap.specs.Spots.{Spot, place_of, words_by};
ghost use Rattle.cb_partheap.specs.Words.{kind_at, mark_at as mark_in, site_at, size_at};

use cb_blocks::Blocks;
use cb_plain::{Shape, Shapes};

// A kind stands below this in the first word of a header, and the length of the contents above it.
pub(crate) const HALF: u64 = 1 << 32;

// A site stands below this in the third word of a header, and the mark above it.
pub(crate) const SITES: u64 = 1 << 14;

// Where in the region an object begins stands below this in its place, and its part above it.
pub(crate) const SPAN: u64 = 1 << 29;

/// The part of the object at a place.
pub fn part_at(at: u64) -> u32
    requires { at < 2 ^ 41 }
    ensures { result ≡ at / 2 ^ 29 }
{
    (at / SPAN) as u32
}

/// Where in the region the object at a place begins.
pub(crate) fn index_at(at: u64) -> u64
    requires { 0 < at % 2 ^ 29 }
    ensures { result ≡ at % 2 ^ 29 - 1 }
{
    at % SPAN - 1
}

/// A word of an object, counted from the first of its header. Where both stand in one block it is found without a table.
pub fn word_at(words: &Blocks, at: u64, i: u64) -> u64
    requires { (spot : Spot) × IsWord words.now at i spot }
    ensures { (spot : Spot) → IsWord words.now at i spot → slice_get (words_by words.now spot) (spot.start + i) ≡ Some result }
{
    words.region_word(words.index_past(index_at(at), i))
}

/// Puts another word in the place of one of an object, counted from the first of its header.
pub fn set_word_at(words: &mut Blocks, at: u64, i: u64, word: u64)
    requires { (spot : Spot) × IsWord words.old at i spot }
    ensures { (spot : Spot) → IsWord words.old at i spot → words.new ≡ with_words words.old spot.part (slice_set (words_by words.old spot) (spot.start + i) word) }
{
    let index = words.index_past(index_at(at), i);
    words.set_region_word(index, word);
}

/// How many words an object takes: three of its header and those of its contents.
pub fn object_words(words: &Blocks, shapes: &Shapes, at: u64) -> u64
    requires { (spot : Spot) × IsHeader words.now at spot }
    ensures { (spot : Spot) → IsHeader words.now at spot → result ≡ words_of (size_at (words_by words.now spot) spot.start) }
{
    let _shapes = shapes;
    3 + word_at(words, at, 0) / HALF
}

/// Whether a word of contents holds a reference, by the shape of the object's kind.
pub fn holds_reference(words: &Blocks, shapes: &Shapes, at: u64, i: u32) -> bool
    requires { (spot : Spot) × IsShaped words.now shapes.now at i spot }
    ensures { (spot : Spot) → IsShaped words.now shapes.now at i spot → result ≡ marks_at shapes.now (words_by words.now spot) spot.start i }
{
    let kind = word_at(words, at, 0) % HALF;
    match shapes.get(kind as usize) {
        Shape::Fields(marks) => *marks.get(i as usize),
        Shape::Elements(mark) => *mark,
    }
}

/// The mark of an object, which is 0 where it isn't marked.
pub fn mark_at(words: &Blocks, at: u64) -> u64
    requires { (spot : Spot) × IsHeader words.now at spot }
    ensures { (spot : Spot) → IsHeader words.now at spot → result ≡ mark_in (words_by words.now spot) spot.start }
{
    word_at(words, at, 2) / SITES
}

/// Gives an object another mark, and leaves its site.
#[inline]
pub fn set_mark_at(words: &mut Blocks, at: u64, mark: u64)
    requires there { (spot : Spot) × IsHeader words.old at spot }
    requires small { mark < 2 ^ 41 }
    ensures { (spot : Spot) → IsHeader words.old at spot → words.new ≡ with_words words.old spot.part
        (slice_set (words_by words.old spot) (spot.start + 2) (site_at (words_by words.old spot) spot.start + mark * 2 ^ 14)) }
{
    let site = word_at(words, at, 2) % SITES;
    set_word_at(words, at, 2, site + mark * SITES);
}

/// The place of an object whose first word stands so far in a part.
pub fn place_at(words: &Blocks, part: u32, start: u64) -> u64
    requires part { part < length words.now.words }
    requires few { part < 2 ^ 12 }
    requires inside { start < length (row words.now.words part) }
    ensures place { result ≡ place_of words.now (record { part = part; start = start }) }
    ensures sound { IsParted words.now }
{
    let _sound = words.blocks_free();
    part as u64 * SPAN + words.index_of(part, start) + 1
}

/// The same, where the place is told of an object in the part, and how many words behind it the other one stands. Where both are in one block no table is looked at.
pub fn place_past(words: &Blocks, part: u32, start: u64, at: u64, count: u64) -> u64
    requires part { part < length words.now.words }
    requires few { part < 2 ^ 12 }
    requires inside { start < length (row words.now.words part) }
    requires behind { count ≤ start }
    requires there { at ≡ place_of words.now (record { part = part; start = start - count }) }
    ensures place { result ≡ place_of words.now (record { part = part; start = start }) }
    ensures sound { IsParted words.now }
{
    let _sound = words.blocks_free();
    let _start = start;
    if (at - 1) % 256 + count < 256 {
        return at + count;
    }
    part as u64 * SPAN + words.index_past(index_at(at), count) + 1
}

/// Copies so many words of a part, which are some, from a place to one that isn't behind it, as by way of a second list, where the places are told of the objects that begin
/// there. Takes time in their number.
pub fn move_placed(
    words: &mut Blocks,
    part: u32,
    from: u64,
    to: u64,
    count: u64,
    places: (u64, u64),
)
    requires part { part < length words.old.words }
    requires order { to ≤ from }
    requires inside { from + count ≤ length (row words.old.words part) }
    requires some { 0 < count }
    requires source { places.0 ≡ place_of words.old (record { part = part; start = from }) }
    requires target { places.1 ≡ place_of words.old (record { part = part; start = to }) }
    ensures { words.new ≡ with_words words.old part (copied (row words.old.words part) from to count) }
{
    let _sound = words.blocks_free();
    words.move_at(
        part,
        from,
        to,
        count,
        (index_at(places.0), index_at(places.1)),
    );
}
