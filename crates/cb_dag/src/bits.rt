// Marks, packed in words.
ghost use Rattle.std.specs.Prelude.{◌≡◌, ◌+◌, ◌*◌, ◌/◌, ◌<◌, ◌≤◌, ◌^◌, true, false, ℕ, length, replicate, slice_get, slice_set, IfOk, Some};
ghost use Rattle.std.specs.Int.{bit_at};
ghost use Rattle.cb_dag.specs.Marks.{IsNext, IsNextBit, bit_of, marked};

use cb_plain::OutOfMemory;
use std::alloc::Global;
use std::marker::Model;

/// How many marks a word has.
const WORD: u32 = 64;

/// Marks by place, 64 to a word. Contracts see them as the list of the marks.
#[derive(Drop)]
pub(crate) struct Bits {
    words: Vec<u64>,
    len: u32,
}

impl Model for Bits {
    ghost use Rattle.std.specs.Prelude.{◌≤◌, ◌<◌, ◌^◌, ◌*◌, length, Bool, List};
    ghost use Rattle.cb_dag.specs.Marks.{unpacked};

    ghost Value = { List Bool };

    ghost view = { λ bits. unpacked bits.len bits.words.items };

    ghost invariant = { λ bits. (bits.len ≤ 64 * length bits.words.items) × (bits.len < 2 ^ 32) × (length bits.words.items < 2 ^ 32) };
}

impl Bits {
    /// So many places without a mark. `OutOfMemory` where memory was not to be had.
    pub fn make(alloc: Global, len: u32) -> Result<Bits, OutOfMemory>
        ensures { IfOk result (λ bits. bits ≡ replicate len false) }
    {
        let words = zero_words(alloc, (len / WORD) as usize + 1)?;
        Ok(Bits { words, len })
    }

    /// How many places there are.
    pub fn len(&self) -> u32
        ensures { result ≡ length self.now }
    {
        self.len
    }

    /// Whether a place is marked.
    pub fn has(&self, place: u32) -> bool
        requires { place < length self.now }
        ensures { slice_get self.now place ≡ Some result }
    {
        has_bit(self.words.as_slice(), place)
    }

    /// Marks a place.
    pub fn put(&mut self, place: u32)
        requires { place < length self.old }
        ensures { self.new ≡ slice_set self.old place true }
    {
        let index = (place / WORD) as usize;
        let word = self.words[index];
        self.words[index] = with_bit(word, place % WORD);
    }

    /// The first place from one on that is marked, if there is any. Looks at a word at a time.
    pub fn next(&self, from: u32) -> Option<u32>
        ensures { IsNext self.now from result }
    {
        if from >= self.len {
            return None;
        }
        match next_bit(self.words.as_slice(), from) {
            Some(place) if place < u64::from(self.len) => Some(place as u32),
            _ => None,
        }
    }
}

/// So many words that are 0. `OutOfMemory` where memory was not to be had.
fn zero_words(alloc: Global, count: usize) -> Result<Vec<u64>, OutOfMemory>
    ensures { IfOk result (λ words. words.items ≡ replicate count 0) }
{
    let words = vec![in alloc; 0_u64; count]?;
    Ok(words)
}

/// Whether the bit of a place is set.
fn has_bit(words: &[u64], place: u32) -> bool
    requires { place < 64 * length words.now }
    ensures { result ≡ bit_of words.now place }
{
    words[(place / WORD) as usize] >> (place % WORD) & 1 == 1
}

/// A word with one bit set.
fn with_bit(word: u64, at: u32) -> u64
    requires { at < 64 }
    ensures same { bit_at result at ≡ 1 }
    ensures others { (other : ℕ) → other < 64 → (other ≡ at → ⊥) → bit_at result other ≡ bit_at word other }
{
    word | 1 << at
}

/// The bits of a word from one on.
fn high_bits(word: u64, at: u32) -> u64
    requires { at < 64 }
    ensures low { (bit : ℕ) → bit < at → bit_at result bit ≡ 0 }
    ensures high { (bit : ℕ) → at ≤ bit → bit < 64 → bit_at result bit ≡ bit_at word bit }
{
    word & u64::MAX << at
}

/// The lowest bit of a word that isn't 0.
fn lowest_bit(word: u64) -> u32
    requires { 0 < word }
    ensures within { result < 64 }
    ensures set { bit_at word result ≡ 1 }
    ensures lowest { (bit : ℕ) → bit < result → bit_at word bit ≡ 0 }
{
    word.trailing_zeros()
}

/// The first place from one on whose bit is set, if there is any.
fn next_bit(words: &[u64], from: u32) -> Option<u64>
    requires within { from < 64 * length words.now }
    requires few { length words.now < 2 ^ 32 }
    ensures { IsNextBit words.now from result }
{
    let first = (from / WORD) as usize;
    let word = high_bits(words[first], from % WORD);
    if word != 0 {
        return Some(first as u64 * 64 + u64::from(lowest_bit(word)));
    }
    for index in first + 1..words.len() {
        let word = words[index];
        if word != 0 {
            return Some(index as u64 * 64 + u64::from(lowest_bit(word)));
        }
    }
    None
}
