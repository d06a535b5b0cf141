// Lists in which each number stands once.
ghost use Rattle.std.specs.Prelude.{◌≡◌, ◌∷◌, ◌++◌, ℕ, List, [], IfOk, OnOk};
ghost use Rattle.cb_hierarchy.specs.Inner.{AreDistinct};

use crate::marks::Marks;
use cb_plain::{Numbers, OutOfMemory};
use std::alloc::Global;

/// Numbers in the order in which they were first added, with a mark for each.
#[derive(Debug, Drop)]
pub(crate) struct Distinct {
    pub(crate) numbers: Numbers,
    marks: Marks,
}

impl Distinct {
    /// No numbers.
    pub(crate) fn new(alloc: Global) -> Result<Self, OutOfMemory>
        ensures { IfOk result (λ distinct. AreDistinct [] distinct.numbers distinct.marks) }
    {
        let marks = Marks::none(alloc, 0)?;
        Ok(Distinct {
            numbers: Numbers::new(alloc),
            marks,
        })
    }

    /// Adds a number at the end, if it isn't there.
    pub(crate) fn push(&mut self, number: u32) -> Result<(), OutOfMemory>
        ensures { (taken : List ℕ) → AreDistinct taken self.old.numbers self.old.marks
            → OnOk result (AreDistinct (taken ++ number ∷ []) self.new.numbers self.new.marks) }
    {
        if !self.marks.has(number) {
            self.marks.add(number)?;
            self.numbers.push(number)?;
        }
        Ok(())
    }

    /// Adds numbers in this way.
    pub(crate) fn append(&mut self, numbers: &[u32]) -> Result<(), OutOfMemory>
        ensures { (taken : List ℕ) → AreDistinct taken self.old.numbers self.old.marks
            → OnOk result (AreDistinct (taken ++ numbers.now) self.new.numbers self.new.marks) }
    {
        for number in numbers {
            self.push(*number)?;
        }
        Ok(())
    }
}
