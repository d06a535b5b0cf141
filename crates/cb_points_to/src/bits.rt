// Marks, packed in words.
ghost use Rattle.std.specs.Prelude.{◌≡◌, ◌*◌, ◌<◌, true, false, ℕ, length, replicate, slice_get, slice_set, IfOk, Some};
ghost use Rattle.std.specs.Int.{bit_at};
ghost use Rattle.cb_points_to.specs.Packed.{bit_of};

use cb_plain::OutOfMemory;
use std::alloc::Global;
use std::marker::Model;

/// How many marks a word has.
const WORD: u32 = 64;

/// Marks by place, 64 to a word. Contracts see them as the list of the marks.
#[derive(Debug, Drop)]
pub(crate) struct Bits {
    words: Vec<u64>,
    len: u32,
}

impl Model for Bits {
    ghost use Rattle.std.specs.Prelude.{◌≤◌, ◌<◌, ◌^◌, ◌*◌, length, Bool, List};
    ghost use Rattle.cb_points_to.specs.Packed.{unpacked};

    ghost Value = { List Bool };

    ghost view = { λ bits. unpacked bits.len bits.words.items };

    ghost invariant = { λ bits. (bits.len ≤ 64 * length bits.words.items) × (bits.len < 2 ^ 32) × (length bits.words.items < 2 ^ 32) };
}

impl Bits {
    /// So many places without a mark. `OutOfMemory` where memory was not to be had.
    pub fn make(alloc: Global, len: u32) -> Result<Bits, OutOfMemory>
        ensures { IfOk result (λ bits. bits ≡ replicate len false) }
    {
        let words = zero_words(alloc, (len / WORD) as usize + 1)?;
        Ok(Bits { words, len })
    }

    /// Whether a place is marked.
    pub fn has(&self, place: u32) -> bool
        requires { place < length self.now }
        ensures { slice_get self.now place ≡ Some result }
    {
        has_bit(self.words.as_slice(), place)
    }

    /// Marks a place.
    pub fn put(&mut self, place: u32)
        requires { place < length self.old }
        ensures { self.new ≡ slice_set self.old place true }
    {
        let index = (place / WORD) as usize;
        let word = self.words[index];
        self.words[index] = with_bit(word, place % WORD);
    }
}

/// So many words that are 0. `OutOfMemory` where memory was not to be had.
fn zero_words(alloc: Global, count: usize) -> Result<Vec<u64>, OutOfMemory>
    ensures { IfOk result (λ words. words.items ≡ replicate count 0) }
{
    let words = vec![in alloc; 0_u64; count]?;
    Ok(words)
}

/// Whether the bit of a place is set.
fn has_bit(words: &[u64], place: u32) -> bool
    requires { place < 64 * length words.now }
    ensures { result ≡ bit_of words.now place }
{
    words[(place / WORD) as usize] >> (place % WORD) & 1 == 1
}

/// A word with one bit set.
fn with_bit(word: u64, at: u32) -> u64
    requires { at < 64 }
    ensures same { bit_at result at ≡ 1 }
    ensures others { (other : ℕ) → other < 64 → (other ≡ at → ⊥) → bit_at result other ≡ bit_at word other }
{
    word | 1 << at
}
