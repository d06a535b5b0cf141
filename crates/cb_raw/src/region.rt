// A region of raw memory.
ghost use Rattle.std.specs.Prelude.{◌≡◌, ◌+◌, ◌-◌, ◌<◌, ◌≤◌, length, max, slice_get, slice_set, IfOk, Some};
ghost use Rattle.cb_raw.specs.Words.{blank, copied, zeroed};

use cb_plain::OutOfMemory;
use std::alloc::Global;
use std::marker::Model;

/// So many words of 64 bits in one piece. Contracts see the list of the words, and how many of them in front were touched.
///
/// Its memory is taken as a whole when it is made, and given back at its end. A word that was never touched reads 0, and the
/// system need not have a page for it.
#[derive(Drop)]
pub struct Region {
    // The words that were touched, with room for all.
    words: Vec<u64>,
    room: usize,
}

impl Model for Region {
    ghost use Rattle.std.specs.Prelude.{◌-◌, ◌≤◌, ◌++◌, replicate, vec_len};
    ghost use Rattle.std.specs.Vec.{vec_capacity};
    ghost use Rattle.cb_raw.specs.Words.{RawWords};

    ghost Value = { RawWords };

    ghost view = { λ region. record { words = region.words.items ++ replicate (region.room - vec_len region.words) 0; touched = vec_len region.words } };

    ghost invariant = { λ region. (vec_len region.words ≤ region.room) × (region.room ≤ vec_capacity region.words) };
}

impl Region {
    /// A region of so many words that hold 0. `OutOfMemory` where that memory was not to be had.
    pub fn make(alloc: Global, words: usize) -> Result<Region, OutOfMemory>
        ensures { IfOk result (λ region. region ≡ blank words) }
    {
        let touched = Vec::with_capacity(alloc, words)?;
        Ok(Region {
            words: touched,
            room: words,
        })
    }

    /// The word at a place in the region.
    pub fn read(&self, i: usize) -> u64
        requires { i < length self.now.words }
        ensures { slice_get self.now.words i ≡ Some result }
    {
        if i < self.words.len() {
            self.words[i]
        } else {
            0
        }
    }

    /// The word at a place that was touched, without a look at whether it was.
    pub fn read_touched(&self, i: usize) -> u64
        requires { i < self.now.touched }
        ensures { slice_get self.now.words i ≡ Some result }
    {
        self.words[i]
    }

    /// Puts another word at a place in the region, and touches the words up to there.
    pub fn write(&mut self, i: usize, word: u64)
        requires { i < length self.old.words }
        ensures words { self.new.words ≡ slice_set self.old.words i word }
        ensures touched { self.new.touched ≡ max self.old.touched (i + 1) }
    {
        if self.words.len() <= i {
            self.touch(i + 1);
        }
        self.words[i] = word;
    }

    /// Puts another word at a place that was touched, without a look at whether it was.
    pub fn write_touched(&mut self, i: usize, word: u64)
        requires { i < self.old.touched }
        ensures words { self.new.words ≡ slice_set self.old.words i word }
        ensures touched { self.new.touched ≡ self.old.touched }
    {
        self.words[i] = word;
    }

    /// Copies so many words from a place to another as by way of a second list, and touches the words up to the last of
    /// them. Takes time in their number, and in that of the words that are touched for the first time.
    pub fn slide(&mut self, from: usize, to: usize, count: usize)
        requires source { from + count ≤ length self.old.words }
        requires target { to + count ≤ length self.old.words }
        ensures words { self.new.words ≡ copied self.old.words from to count }
        ensures touched { self.new.touched ≡ max self.old.touched (max from to + count) }
    {
        prove!(from <= self.room);
        let end = from.max(to) + count;
        if self.words.len() < end {
            self.touch(end);
        }
        self.words
            .as_mut_slice()
            .copy_within(from..from + count, to);
    }

    #[tactic(auto, using(crate::proofs::Zeros::zeroed_in_front))]
    #[inline(never)]
    /// Puts 0 into so many words from a place on, and touches the words up to the last of them. Takes time in their number,
    /// and in that of the words that are touched for the first time.
    pub fn zero(&mut self, from: usize, count: usize)
        requires { from + count ≤ length self.old.words }
        ensures words { self.new.words ≡ zeroed self.old.words from count }
        ensures touched { self.new.touched ≡ max self.old.touched (from + count) }
    {
        prove!(from <= self.room);
        let touched = self.words.len();
        let end = from + count;
        clear(
            self.words.as_mut_slice(),
            from.min(touched),
            end.min(touched),
        );
        self.touch(end);
    }

    /// Touches the words in front up to a place, which stay as they are.
    fn touch(&mut self, end: usize)
        requires { end ≤ length self.old.words }
        ensures words { self.new.words ≡ self.old.words }
        ensures touched { self.new.touched ≡ max self.old.touched end }
    {
        if self.words.len() < end {
            let _within_the_room = self.words.resize(end, 0);
        }
    }
}

/// Puts 0 into the words between two places.
fn clear(words: &mut [u64], from: usize, end: usize)
    requires order { from ≤ end }
    requires within { end ≤ length words.old }
    ensures { words.new ≡ zeroed words.old from (end - from) }
{
    words[from..end].fill(0);
}
