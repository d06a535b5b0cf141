// The shapes of objects.
ghost use Rattle.std.specs.Prelude.{◌≡◌, ◌<◌, ℕ, false, length, slice_get, Some};
ghost use Rattle.cb_partheap.specs.Headers.{IsHeader};
ghost use Rattle.cb_partheap.specs.Heaps.{HasWord, holds as holds_by};
ghost use Rattle.cb_partheap.specs.Spots.{Spot, words_by};
ghost use Rattle.cb_partheap.specs.Words.{kind_at};

use crate::words::{HALF, word_at};
use cb_blocks::Blocks;
use cb_plain::{Shape, Shapes};

/// The shape of an object's kind.
pub fn shape_at<'a>(words: &Blocks, shapes: &'a Shapes, at: u64) -> &'a Shape
    requires { (spot : Spot) × IsHeader words.now at spot × (kind_at (words_by words.now spot) spot.start < length shapes.now) }
    ensures { (spot : Spot) → IsHeader words.now at spot → slice_get shapes.now (kind_at (words_by words.now spot) spot.start) ≡ Some result.now }
{
    let kind = word_at(words, at, 0) % HALF;
    shapes.get(kind as usize)
}

/// Whether any word of such an object holds a reference. An array of numbers has none.
pub fn may_hold(shape: &Shape) -> bool
    ensures { result ≡ false → (i : ℕ) → holds_by (Some shape.now) i ≡ false }
{
    match shape {
        Shape::Fields(_) => true,
        Shape::Elements(mark) => *mark,
    }
}

/// Whether a word of such an object holds a reference.
pub fn holds(shape: &Shape, i: u32) -> bool
    requires { HasWord shape.now i }
    ensures { result ≡ holds_by (Some shape.now) i }
{
    match shape {
        Shape::Fields(marks) => *marks.get(i as usize),
        Shape::Elements(mark) => *mark,
    }
}
