// Sets of numbers.
ghost use Rattle.std.specs.Prelude.{◌≡◌, ◌<◌, ℕ, false, true, length, replicate, slice_set, count_by, IfOk, OnOk};
ghost use Rattle.std.specs.List.{Contains};
ghost use Rattle.cb_hierarchy.specs.Inner.{AreWith, MarksList, has};

use cb_plain::OutOfMemory;
use std::alloc::Global;
use std::marker::Model;

/// A set of numbers: a mark for each number below the length.
#[derive(Debug, Drop)]
pub(crate) struct Marks {
    marks: Vec<bool>,
}

impl Model for Marks {
    ghost use Rattle.std.specs.Prelude.{Bool, List};

    ghost Value = { List Bool };

    ghost view = { λ marks. marks.marks.items };
}

impl Marks {
    /// So many marks, none set.
    pub(crate) fn none(alloc: Global, count: usize) -> Result<Self, OutOfMemory>
        ensures { IfOk result (λ marks. marks ≡ replicate count false) }
    {
        let marks = vec![in alloc; false; count]?;
        Ok(Marks { marks })
    }

    /// So many marks, those of some numbers set.
    pub(crate) fn of(alloc: Global, count: usize, numbers: &[u32]) -> Result<Self, OutOfMemory>
        ensures marked { IfOk result (λ marks. MarksList numbers.now marks) }
        ensures length { IfOk result (λ marks. ((number : ℕ) → Contains numbers.now number → number < count) → length marks ≡ count) }
    {
        let mut marks = Marks::none(alloc, count)?;
        for number in numbers {
            marks.add(*number)?;
        }
        Ok(marks)
    }

    /// How many marks there are.
    pub(crate) fn len(&self) -> usize
        ensures { result ≡ length self.now }
    {
        self.marks.len()
    }

    /// Whether a number is marked.
    pub(crate) fn has(&self, number: u32) -> bool
        ensures { result ≡ has self.now number }
    {
        match self.marks.get(number as usize) {
            Some(mark) => *mark,
            None => false,
        }
    }

    /// How many numbers are marked.
    pub(crate) fn count(&self) -> usize
        ensures { result ≡ count_by (λ mark. mark) self.now }
    {
        self.marks.iter().filter(|mark| **mark).count()
    }

    /// Marks a number below the length.
    pub(crate) fn put(&mut self, number: u32)
        requires { number < length self.old }
        ensures { self.new ≡ slice_set self.old number true }
    {
        self.marks[number as usize] = true;
    }

    /// Marks any number.
    pub(crate) fn add(&mut self, number: u32) -> Result<(), OutOfMemory>
        ensures added { OnOk result (AreWith self.old number self.new) }
        ensures length { OnOk result (number < length self.old → length self.new ≡ length self.old) }
    {
        if self.marks.len() <= number as usize {
            self.marks.resize(number as usize + 1, false)?;
        }
        self.marks[number as usize] = true;
        Ok(())
    }
}
