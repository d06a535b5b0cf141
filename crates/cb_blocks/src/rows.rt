// Rows of numbers that grow and shrink at their ends.
ghost use Rattle.std.specs.Prelude.{◌≡◌, ◌-◌, ◌<◌, ℕ, List, length, slice_get, Some};
ghost use Rattle.cb_blocks.specs.Rows.{held, popped, pushed, row};

/// A row of numbers for each part, with room for so many in all and for so many in each.
pub(crate) trait Rows: Drop {
    ghost rows: { Self → List (List ℕ) };

    ghost most: { Self → ℕ };

    ghost longest: { Self → ℕ };

    /// How many numbers the row of a part has.
    fn len(&self, part: u32) -> u32
        requires { part < length (rows self.now) }
        ensures { result ≡ length (row (rows self.now) part) };

    /// The number at a place in the row of a part.
    fn get(&self, part: u32, i: u32) -> u32
        requires part { part < length (rows self.now) }
        requires place { i < length (row (rows self.now) part) }
        ensures { slice_get (row (rows self.now) part) i ≡ Some result };

    /// Adds a number at the end of the row of a part.
    fn push(&mut self, part: u32, number: u32)
        requires part { part < length (rows self.old) }
        requires room { held (rows self.old) < most self.old }
        requires short { length (row (rows self.old) part) < longest self.old }
        ensures rows { rows self.new ≡ pushed (rows self.old) part number }
        ensures most { most self.new ≡ most self.old }
        ensures longest { longest self.new ≡ longest self.old };

    /// Takes the number at the end of the row of a part.
    fn pop(&mut self, part: u32) -> u32
        requires part { part < length (rows self.old) }
        requires filled { 0 < length (row (rows self.old) part) }
        ensures number { slice_get (row (rows self.old) part) (length (row (rows self.old) part) - 1) ≡ Some result }
        ensures rows { rows self.new ≡ popped (rows self.old) part }
        ensures most { most self.new ≡ most self.old }
        ensures longest { longest self.new ≡ longest self.old };
}
