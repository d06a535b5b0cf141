// Which numbers of a stock stand in which row.
ghost use Rattle.std.specs.Prelude.{◌≡◌, ◌+◌, ◌*◌, ◌<◌, ◌≤◌, ◌^◌, [], ◌∷◌, ◌++◌, ◌-◌, ℕ, length, max, replicate, slice_get, slice_set, take, IfOk, IsTrue, Some};
ghost use Rattle.std.specs.Vec.{vec_capacity};
ghost use Rattle.cb_blocks.specs.Holdings.{IsHeld, IsNext, IsNumberAt};
ghost use Rattle.cb_blocks.specs.Rows.{IsExtended, held, popped, pushed, row};

use crate::rows::Rows;
use cb_plain::OutOfMemory;
use std::alloc::Global;
use std::marker::Model;

/// The numbers below a count, each of which stands in the row of a part or is free.
///
/// It says of each number where it stands, as well as the other way round, and takes no memory once it is made.
#[derive(Drop)]
pub(crate) struct Holdings<R: Rows> {
    rows: R,
    // Numbers that stood in a row once, the one that is taken next behind.
    free: Vec<u32>,
    // By number, the part and the place in its row.
    tags: Vec<u64>,
    // All numbers from here on were never taken.
    fresh: u32,
    count: u32,
    parts: u32,
}

impl<R: Rows> Model for Holdings<R> {
    ghost use Rattle.std.specs.Vec.{vec_capacity};
    ghost use Rattle.cb_blocks.specs.Holdings.{Held, IsKept};

    ghost Value = { Held };

    ghost view = { λ all. record { rows = R.rows all.rows; count = all.count; fresh = all.fresh; longest = R.longest all.rows } };

    ghost invariant = { λ all. IsKept (R.rows all.rows) all.free.items all.tags.items all.count all.fresh all.parts (R.most all.rows) (vec_capacity all.free) };
}

/// Where a number stands, as a number.
fn tag(part: u32, place: u32) -> u64
    ensures { result ≡ part * 1048576 + place }
{
    part as u64 * 1_048_576 + place as u64
}

/// Takes the number that was made free last, or else the first that was never taken.
fn next(free: &mut Vec<u32>, fresh: &mut u32) -> u32
    requires { fresh.old ≤ 2 ^ 20 }
    ensures next { IsNext free.old.items fresh.old free.new.items fresh.new result }
    ensures room { vec_capacity free.new ≡ vec_capacity free.old }
{
    match free.pop() {
        Some(number) => number,
        None => {
            *fresh += 1;
            *fresh - 1
        }
    }
}

/// Adds a free number where there is room for it.
fn add(free: &mut Vec<u32>, number: u32)
    requires { length free.old.items < vec_capacity free.old }
    ensures items { free.new.items ≡ free.old.items ++ number ∷ [] }
    ensures room { vec_capacity free.old ≤ vec_capacity free.new }
{
    let _there_is_room = free.push(number);
}

impl<R: Rows> Holdings<R> {
    /// So many numbers, all free, for so many rows that have none. `OutOfMemory` where their room was not to be had.
    pub(crate) fn make(
        alloc: Global,
        rows: R,
        count: u32,
        parts: u32,
    ) -> Result<Holdings<R>, OutOfMemory>
        requires empty { R.rows rows ≡ replicate parts [] }
        requires bound { count ≤ 2 ^ 20 }
        requires few { parts ≤ 2 ^ 12 }
        requires room { count ≤ R.most rows }
        ensures made { IfOk result (λ all. all ≡ record { rows = replicate parts []; count = count; fresh = 0; longest = R.longest rows }) }
        ensures sound { IfOk result IsHeld }
    {
        let tags = vec![in alloc; 0_u64; count as usize]?;
        let free = Vec::with_capacity(alloc, count as usize)?;
        Ok(Holdings {
            rows,
            free,
            tags,
            fresh: 0,
            count,
            parts,
        })
    }

    /// How many numbers are free.
    pub(crate) fn free(&self) -> u32
        ensures { held self.now.rows + result ≡ self.now.count }
    {
        self.count - self.fresh + self.free.len() as u32
    }

    /// In which row a number stands, and where.
    pub(crate) fn place_of(&self, number: u32) -> (u32, u32)
        requires { (part : ℕ) × (i : ℕ) × IsNumberAt self.now.rows part i number }
        ensures { (part i : ℕ) → IsNumberAt self.now.rows part i number → (result.0 ≡ part) × (result.1 ≡ i) }
    {
        let tag = self.tags[number as usize];
        ((tag / 1_048_576) as u32, (tag % 1_048_576) as u32)
    }

    /// Whether the number so many after one stands as far behind it in the same row. Only where that many stand behind it does the answer say
    /// something.
    pub(crate) fn follows(&self, number: u64, count: u64) -> bool
        requires there { (part : ℕ) × (i : ℕ) × IsNumberAt self.now.rows part i number }
        requires small { number + count < 2 ^ 32 }
        ensures { (part i : ℕ) → IsNumberAt self.now.rows part i number → i + count < length (row self.now.rows part) → IsTrue result → IsNumberAt self.now.rows part (i + count) (number + count) }
    {
        let other = number + count;
        if (other as u32) < self.fresh {
            self.tags[other as usize] == self.tags[number as usize] + count
        } else {
            false
        }
    }

    /// The number at a place in the row of a part.
    pub(crate) fn get(&self, part: u32, i: u32) -> u32
        requires part { part < length self.now.rows }
        requires place { i < length (row self.now.rows part) }
        ensures { slice_get (row self.now.rows part) i ≡ Some result }
    {
        self.rows.get(part, i)
    }

    /// The same, where a number is told that may be it: only where it isn't are the rows looked at.
    pub(crate) fn get_near(&self, part: u32, i: u32, near: u32) -> u32
        requires part { part < length self.now.rows }
        requires place { i < length (row self.now.rows part) }
        ensures { slice_get (row self.now.rows part) i ≡ Some result }
    {
        if near < self.fresh {
            if self.tags[near as usize] == tag(part, i) {
                return near;
            }
        }
        self.get(part, i)
    }

    /// Takes a free number to the end of the row of a part, and gives it.
    #[inline(never)]
    pub(crate) fn take(&mut self, part: u32) -> u32
        requires part { part < length self.old.rows }
        requires free { held self.old.rows < self.old.count }
        requires short { length (row self.old.rows part) < self.old.longest }
        ensures rows { self.new.rows ≡ pushed self.old.rows part result }
        ensures fresh { self.new.fresh ≡ max self.old.fresh (result + 1) }
        ensures count { self.new.count ≡ self.old.count }
        ensures longest { self.new.longest ≡ self.old.longest }
        ensures sound { IsHeld self.new }
    {
        let number = next(&mut self.free, &mut self.fresh);
        self.tags[number as usize] = tag(part, self.rows.len(part));
        self.rows.push(part, number);
        number
    }

    /// Makes the number at the end of the row of a part free.
    pub(crate) fn give(&mut self, part: u32)
        requires part { part < length self.old.rows }
        requires filled { 0 < length (row self.old.rows part) }
        ensures rows { self.new.rows ≡ popped self.old.rows part }
        ensures fresh { self.new.fresh ≡ self.old.fresh }
        ensures count { self.new.count ≡ self.old.count }
        ensures longest { self.new.longest ≡ self.old.longest }
        ensures sound { IsHeld self.new }
    {
        let number = self.rows.pop(part);
        self.tags[number as usize] = tag(self.parts, self.free.len() as u32);
        add(&mut self.free, number);
    }

    /// How many numbers the row of a part has.
    pub(crate) fn len(&self, part: u32) -> u32
        requires { part < length self.now.rows }
        ensures { result ≡ length (row self.now.rows part) }
    {
        self.rows.len(part)
    }

    /// Takes free numbers to the end of the row of a part until it has so many.
    pub(crate) fn reach(&mut self, part: u32, count: u32)
        requires part { part < length self.old.rows }
        requires free { held self.old.rows + (count - length (row self.old.rows part)) ≤ self.old.count }
        requires short { count ≤ self.old.longest }
        requires sound { IsHeld self.old }
        ensures rows { IsExtended self.old.rows self.new.rows part (count - length (row self.old.rows part)) }
        ensures count { self.new.count ≡ self.old.count }
        ensures longest { self.new.longest ≡ self.old.longest }
        ensures sound { IsHeld self.new }
    {
        while self.len(part) < count {
            self.take(part);
        }
    }

    /// Makes the numbers at the end of the row of a part free until it has no more than so many.
    pub(crate) fn keep(&mut self, part: u32, count: u32)
        requires part { part < length self.old.rows }
        requires sound { IsHeld self.old }
        ensures rows { self.new.rows ≡ slice_set self.old.rows part (take count (row self.old.rows part)) }
        ensures fresh { self.new.fresh ≡ self.old.fresh }
        ensures count { self.new.count ≡ self.old.count }
        ensures longest { self.new.longest ≡ self.old.longest }
        ensures sound { IsHeld self.new }
    {
        while self.len(part) > count {
            self.give(part);
        }
    }
}
