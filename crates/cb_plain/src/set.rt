// Sets of parts.
ghost use Rattle.std.specs.Prelude.{◌≡◌, ◌<◌, false, length, replicate, slice_get, slice_set, IfOk, Some};

use crate::OutOfMemory;
use std::alloc::Global;
use std::marker::Model;

/// A set of parts of a heap. Contracts see it as the list of its marks, by part.
#[derive(Debug, Drop)]
pub struct Set {
    marks: Vec<bool>,
    parts: u32,
}

impl Model for Set {
    ghost use Rattle.std.specs.Prelude.{◌≡◌, length, Bool, List};

    ghost Value = { List Bool };

    ghost view = { λ set. set.marks.items };

    ghost invariant = { λ set. length set.marks.items ≡ set.parts };
}

impl Set {
    /// The empty set of so many parts. `OutOfMemory` where memory was not to be had.
    pub fn make(alloc: Global, parts: u32) -> Result<Set, OutOfMemory>
        ensures { IfOk result (λ set. set ≡ replicate parts false) }
    {
        let marks = vec![in alloc; false; parts as usize]?;
        Ok(Set { marks, parts })
    }

    /// How many parts there are.
    pub fn parts(&self) -> u32
        ensures { result ≡ length self.now }
    {
        self.parts
    }

    /// Whether a part is in the set.
    pub fn has(&self, part: u32) -> bool
        requires { part < length self.now }
        ensures { slice_get self.now part ≡ Some result }
    {
        self.marks[part as usize]
    }

    /// Puts a part into the set, or takes it out.
    pub fn put(&mut self, part: u32, member: bool)
        requires { part < length self.old }
        ensures { self.new ≡ slice_set self.old part member }
    {
        self.marks[part as usize] = member;
    }

    /// The marks of all parts, in order.
    pub fn as_slice(&self) -> &[bool]
        ensures { result.now ≡ self.now }
    {
        self.marks.as_slice()
    }
}
