// The words of a heap's parts.
ghost use Rattle.std.specs.Prelude.{◌≡◌, ◌+◌, ◌-◌, ◌*◌, ◌%◌, ◌<◌, ◌≤◌, ◌^◌, ◌↔◌, ◌∷◌, ℕ, length, replicate, slice_get, slice_set, IfOk, IsErr, OnErr, OnOk, Some};
ghost use Rattle.cb_blocks.specs.Parted.{IsAt, IsEnd, IsGrown, IsGrownBy, IsOpened, IsParted, IsReached, IsTooMuch, blocks_for, empty_parts, room_behind, taken, with_fewer, with_words};
ghost use Rattle.cb_raw.specs.Words.{copied};
ghost use Rattle.cb_blocks.specs.Holdings.{IsHeld};
ghost use Rattle.cb_blocks.specs.Rows.{held, row};

use crate::flat_rows::FlatRows;
use crate::holdings::Holdings;
use crate::paged_rows::PagedRows;
use cb_plain::OutOfMemory;
use cb_raw::Region;
use std::alloc::Global;
use std::marker::Model;

/// Fewer blocks are free than were asked for.
#[derive(Clone, Copy, Debug, Drop, Eq, PartialEq)]
pub struct NoBlocks;

/// The words of so many parts of a heap, in blocks of 256 words of one region. Contracts see them as a list for each part, with
/// how many blocks there are and which of them each part has.
///
/// All memory is taken when it is made.
#[derive(Drop)]
pub struct Blocks {
    region: Region,
    blocks: Holdings<PagedRows<PagedRows<FlatRows>>>,
    // By part, how many words it has, and where in the region these end.
    used: Vec<u64>,
    ends: Vec<u64>,
}

impl Model for Blocks {
    ghost use Rattle.cb_blocks.specs.Parted.{IsEnded, Parted};
    ghost use Rattle.cb_blocks.specs.Rows.{all_paged};

    ghost Value = { Parted };

    ghost view = { λ all. record { blocks = all.blocks.count; rows = all.blocks.rows; words = all_paged 256 all.region.words all.blocks.rows all.used.items } };

    ghost invariant = { λ all. IsEnded all.region all.blocks all.used.items all.ends.items };
}

impl Blocks {
    /// So many blocks for so many parts, none of which has words. `OutOfMemory` where that memory was not to be had.
    pub fn make(alloc: Global, blocks: u32, parts: u32) -> Result<Blocks, OutOfMemory>
        requires blocks { blocks ≤ 2 ^ 20 }
        requires parts { parts ≤ 2 ^ 12 }
        ensures { IfOk result (λ all. all ≡ empty_parts blocks parts) }
    {
        let longest = blocks / 128 + 1;
        let flat = FlatRows::make(alloc, parts, longest / 128 + 1)?;
        let middle = PagedRows::make(alloc, flat, parts, blocks / 128 + parts + 1, longest)?;
        let table = PagedRows::make(alloc, middle, parts, blocks, blocks)?;
        let held = Holdings::make(alloc, table, blocks, parts)?;
        let region = Region::make(alloc, blocks as usize * 256)?;
        let used = vec![in alloc; 0_u64; parts as usize]?;
        let ends = vec![in alloc; 0_u64; parts as usize]?;
        Ok(Blocks {
            region,
            blocks: held,
            used,
            ends,
        })
    }

    /// How many blocks are free.
    pub fn blocks_free(&self) -> u32
        ensures free { taken self.now.words + result ≡ self.now.blocks }
        ensures sound { IsParted self.now }
    {
        self.blocks.free()
    }

    /// How many words a part has.
    pub fn used(&self, part: u32) -> u64
        requires { part < length self.now.words }
        ensures { result ≡ length (row self.now.words part) }
    {
        self.used[part as usize]
    }

    /// A word of a part. Takes a few looks into tables.
    pub fn word(&self, part: u32, i: u64) -> u64
        requires part { part < length self.now.words }
        requires place { i < length (row self.now.words part) }
        ensures { slice_get (row self.now.words part) i ≡ Some result }
    {
        let index = self.index_of(part, i);
        self.region.read_touched(index as usize)
    }

    /// Puts another word at a place of a part. Takes a few looks into tables.
    pub fn set_word(&mut self, part: u32, i: u64, word: u64)
        requires part { part < length self.old.words }
        requires place { i < length (row self.old.words part) }
        ensures { self.new ≡ with_words self.old part (slice_set (row self.old.words part) i word) }
    {
        let index = self.index_of(part, i);
        self.region.write_touched(index as usize, word);
    }

    /// The place in the region of a word of a part.
    pub fn index_of(&self, part: u32, i: u64) -> u64
        requires part { part < length self.now.words }
        requires place { i < length (row self.now.words part) }
        ensures { IsAt self.now part i result }
    {
        let block = self.blocks.get(part, (i / 256) as u32);
        block as u64 * 256 + i % 256
    }

    /// The same, where a place is told that may lie in the same block. Where it does no table is looked at but the block's tag.
    pub fn index_near(&self, part: u32, i: u64, near: u64) -> u64
        requires part { part < length self.now.words }
        requires place { i < length (row self.now.words part) }
        ensures { IsAt self.now part i result }
    {
        let block = self
            .blocks
            .get_near(part, (i / 256) as u32, (near / 256 % 1_048_576) as u32);
        block as u64 * 256 + i % 256
    }

    /// The word at a place in the region, where a word of a part stands.
    pub fn region_word(&self, index: u64) -> u64
        requires { (part : ℕ) × (i : ℕ) × IsAt self.now part i index }
        ensures { (part i : ℕ) → IsAt self.now part i index → slice_get (row self.now.words part) i ≡ Some result }
    {
        self.region.read_touched(index as usize)
    }

    /// Puts another word at a place in the region, where a word of a part stands.
    pub fn set_region_word(&mut self, index: u64, word: u64)
        requires { (part : ℕ) × (i : ℕ) × IsAt self.old part i index }
        ensures { (part i : ℕ) → IsAt self.old part i index → self.new ≡ with_words self.old part (slice_set (row self.old.words part) i word) }
    {
        self.region.write_touched(index as usize, word);
    }

    /// The place in the region of the word so many behind the one at a place, in the same part. Where both stand in one block it is
    /// found without a table, where the blocks between were taken one after the other by two looks into one, and else by a few more.
    pub fn index_past(&self, index: u64, count: u64) -> u64
        requires { (part : ℕ) × (i : ℕ) × IsReached self.now part i index count }
        ensures { (part i : ℕ) → IsReached self.now part i index count → IsAt self.now part (i + count) result }
    {
        let _region = &self.region;
        let there = index + count;
        let block = index / 256;
        if index % 256 + count < 256 {
            there
        } else if self.blocks.follows(block, there / 256 - block) {
            there
        } else {
            self.index_far(index, count)
        }
    }

    /// The same by the tables.
    #[inline(never)]
    fn index_far(&self, index: u64, count: u64) -> u64
        requires { (part : ℕ) × (i : ℕ) × IsReached self.now part i index count }
        ensures { (part i : ℕ) → IsReached self.now part i index count → IsAt self.now part (i + count) result }
    {
        let (part, block) = self.blocks.place_of((index / 256) as u32);
        self.index_of(part, block as u64 * 256 + index % 256 + count)
    }

    /// Where in its part the word at a place in the region stands.
    pub fn position(&self, index: u64) -> u64
        requires { (part : ℕ) × (i : ℕ) × IsAt self.now part i index }
        ensures { (part i : ℕ) → IsAt self.now part i index → result ≡ i }
    {
        let (_, block) = self.blocks.place_of((index / 256) as u32);
        block as u64 * 256 + index % 256
    }

    /// Adds so many words that hold 0 at the end of a part, in as many blocks more as they need. Takes time in these, and looks at no
    /// table where they fit into the part's last block. `NoBlocks` exactly where fewer blocks are free, and then nothing has changed.
    #[inline]
    pub fn grow(&mut self, part: u32, words: u64) -> Result<(), NoBlocks>
        requires { part < length self.old.words }
        ensures grown { OnOk result (IsGrown self.old self.new part words) }
        ensures refused { OnErr result (self.new ≡ self.old) }
        ensures room { IsErr result ↔ IsTooMuch self.old part words }
    {
        let end = self.end(part);
        if words <= left_behind(end) {
            self.extend(part, end, words);
            return Ok(());
        }
        let used = self.used[part as usize].saturating_add(words);
        let wanted = count_blocks(used);
        let have = self.blocks.len(part) as u64;
        if wanted - have > self.blocks.free() as u64 {
            return Err(NoBlocks);
        }
        open(&mut self.blocks, &mut self.region, part, wanted as u32);
        self.used[part as usize] = used;
        self.ends[part as usize] = end_of(&self.blocks, part, used);
        Ok(())
    }

    /// Adds three words and so many behind them that hold 0 at the end of a part, where there are blocks for them, and gives the place in the
    /// region of the first of them. Takes time in the blocks, and looks at no table where they fit into the part's last one.
    #[inline]
    pub fn add(&mut self, part: u32, head: (u64, u64, u64), zeros: u32) -> u64
        requires part { part < length self.old.words }
        requires room { IsTooMuch self.old part (3 + zeros) → ⊥ }
        ensures added { IsGrownBy self.old self.new part (head.0 ∷ head.1 ∷ head.2 ∷ replicate zeros 0) }
        ensures place { IsAt self.new part (length (row self.old.words part)) result }
    {
        let end = self.end(part);
        let words = 3 + zeros as u64;
        if words > left_behind(end) {
            return self.add_far(part, head.0, head.1, head.2, zeros);
        }
        self.extend(part, end, words);
        self.set_region_word(end, head.0);
        self.set_region_word(end + 1, head.1);
        self.set_region_word(end + 2, head.2);
        end
    }

    /// The same by the tables.
    #[inline(never)]
    fn add_far(&mut self, part: u32, first: u64, second: u64, third: u64, zeros: u32) -> u64
        requires part { part < length self.old.words }
        requires room { IsTooMuch self.old part (3 + zeros) → ⊥ }
        ensures added { IsGrownBy self.old self.new part (first ∷ second ∷ third ∷ replicate zeros 0) }
        ensures place { IsAt self.new part (length (row self.old.words part)) result }
    {
        let start = self.used(part);
        let _there_is_room = self.grow(part, 3 + zeros as u64);
        let _end = self.used(part);
        self.set_word(part, start, first);
        self.set_word(part, start + 1, second);
        self.set_word(part, start + 2, third);
        self.index_of(part, start)
    }

    /// Where in the region the words of a part end.
    fn end(&self, part: u32) -> u64
        requires { part < length self.now.words }
        ensures is { IsEnd (row self.now.rows part) (length (row self.now.words part)) result }
        ensures small { result ≤ 2 ^ 28 }
        ensures sound { IsParted self.now }
    {
        self.ends[part as usize]
    }

    /// Adds so many words that hold 0 at the end of a part, which lie in its last block.
    fn extend(&mut self, part: u32, end: u64, words: u64)
        requires part { part < length self.old.words }
        requires end { IsEnd (row self.old.rows part) (length (row self.old.words part)) end }
        requires small { end ≤ 2 ^ 28 }
        requires within { words ≤ room_behind end }
        ensures { IsGrown self.old self.new part words }
    {
        self.ends[part as usize] = end + words;
        self.used[part as usize] += words;
    }

    /// Leaves a part so many words, and gives the whole blocks behind them back. Takes time in the blocks that are given back.
    pub fn shrink(&mut self, part: u32, used: u64)
        requires part { part < length self.old.words }
        requires fewer { used ≤ length (row self.old.words part) }
        ensures { self.new ≡ with_fewer self.old part used }
    {
        let _had = self.used[part as usize];
        self.blocks.keep(part, count_blocks(used) as u32);
        let end = end_of(&self.blocks, part, used);
        self.region.zero(end as usize, left_behind(end) as usize);
        self.used[part as usize] = used;
        self.ends[part as usize] = end;
    }

    /// Copies so many words of a part from a place to one that isn't behind it, as by way of a second list. Takes time in their number.
    pub fn move_words(&mut self, part: u32, from: u64, to: u64, count: u64)
        requires part { part < length self.old.words }
        requires order { to ≤ from }
        requires inside { from + count ≤ length (row self.old.words part) }
        ensures { self.new ≡ with_words self.old part (copied (row self.old.words part) from to count) }
    {
        let _target = self.move_near(part, from, to, count, (0, 0));
    }

    /// The same, where places are told that may lie in the same blocks as the first word and as its target. Where they do no table is looked at but the blocks'
    /// tags. Gives a place that mostly lies behind the last word's target.
    pub fn move_near(&mut self, part: u32, from: u64, to: u64, count: u64, near: (u64, u64)) -> u64
        requires part { part < length self.old.words }
        requires order { to ≤ from }
        requires inside { from + count ≤ length (row self.old.words part) }
        ensures { self.new ≡ with_words self.old part (copied (row self.old.words part) from to count) }
    {
        let _used = self.used(part);
        let mut done = 0;
        let mut source = near.0;
        let mut target = near.1;
        while done < count {
            let step = piece(from + done, to + done, count - done);
            source = self.index_near(part, from + done, source);
            target = self.index_near(part, to + done, target);
            self.move_piece(part, from + done, to + done, step, (source, target));
            done += step;
            source = source.wrapping_add(step);
            target = target.wrapping_add(step);
        }
        target
    }

    /// The same, where the places in the region are told of the first word and of its target. Where the words stand in one block and go into one, no table is looked at.
    #[inline]
    pub fn move_at(&mut self, part: u32, from: u64, to: u64, count: u64, places: (u64, u64))
        requires part { part < length self.old.words }
        requires order { to ≤ from }
        requires inside { from + count ≤ length (row self.old.words part) }
        requires some { 0 < count }
        requires source { IsAt self.old part from places.0 }
        requires target { IsAt self.old part to places.1 }
        ensures { self.new ≡ with_words self.old part (copied (row self.old.words part) from to count) }
    {
        if count <= 256 - from % 256 && count <= 256 - to % 256 {
            self.move_piece(part, from, to, count, places);
        } else {
            self.move_far(part, from, to, count, places);
        }
    }

    /// The same in pieces.
    #[inline(never)]
    fn move_far(&mut self, part: u32, from: u64, to: u64, count: u64, places: (u64, u64))
        requires part { part < length self.old.words }
        requires order { to ≤ from }
        requires inside { from + count ≤ length (row self.old.words part) }
        ensures { self.new ≡ with_words self.old part (copied (row self.old.words part) from to count) }
    {
        let _target = self.move_near(part, from, to, count, places);
    }

    /// The same of words that stand in one block, to places that are in one block too, where these are told.
    fn move_piece(&mut self, part: u32, from: u64, to: u64, count: u64, places: (u64, u64))
        requires part { part < length self.old.words }
        requires order { to ≤ from }
        requires inside { from + count ≤ length (row self.old.words part) }
        requires some { 0 < count }
        requires source { from % 256 + count ≤ 256 }
        requires target { to % 256 + count ≤ 256 }
        requires source_is { IsAt self.old part from places.0 }
        requires target_is { IsAt self.old part to places.1 }
        ensures { self.new ≡ with_words self.old part (copied (row self.old.words part) from to count) }
    {
        self.region
            .slide(places.0 as usize, places.1 as usize, count as usize);
    }
}

/// How many of so many words from a place on can be copied to another within one block each.
fn piece(from: u64, to: u64, count: u64) -> u64
    requires { 0 < count }
    ensures some { 0 < result }
    ensures within { result ≤ count }
    ensures source { from % 256 + result ≤ 256 }
    ensures target { to % 256 + result ≤ 256 }
{
    count.min(256 - from % 256).min(256 - to % 256)
}

/// How many blocks so many words need.
fn count_blocks(words: u64) -> u64
    ensures { result ≡ blocks_for words }
{
    words / 256 + (words % 256).min(1)
}

/// How many words there are behind a place in the region, up to the end of the block of the word before it.
fn left_behind(end: u64) -> u64
    requires { end < 2 ^ 63 }
    ensures { result ≡ room_behind end }
{
    255 - (end + 255) % 256
}

/// Where in the region so many words of a part end.
fn end_of(blocks: &Holdings<PagedRows<PagedRows<FlatRows>>>, part: u32, used: u64) -> u64
    requires part { part < length blocks.now.rows }
    requires exact { length (row blocks.now.rows part) ≡ blocks_for used }
    requires sound { IsHeld blocks.now }
    ensures { IsEnd (row blocks.now.rows part) used result }
{
    if used == 0 {
        return 0;
    }
    let block = blocks.get(part, ((used - 1) / 256) as u32);
    block as u64 * 256 + (used - 1) % 256 + 1
}

/// Takes free blocks for a part until it has so many, with 0 in their words.
fn open(
    blocks: &mut Holdings<PagedRows<PagedRows<FlatRows>>>,
    region: &mut Region,
    part: u32,
    wanted: u32,
)
    requires part { part < length blocks.old.rows }
    requires free { held blocks.old.rows + (wanted - length (row blocks.old.rows part)) ≤ blocks.old.count }
    requires short { wanted ≤ blocks.old.longest }
    requires sound { IsHeld blocks.old }
    requires whole { length region.old.words ≡ blocks.old.count * 256 }
    requires touched { region.old.touched ≡ blocks.old.fresh * 256 }
    ensures { IsOpened region.old blocks.old region.new blocks.new part (wanted - length (row blocks.old.rows part)) }
{
    while blocks.len(part) < wanted {
        let block = blocks.take(part);
        region.zero(block as usize * 256, 256);
    }
}
