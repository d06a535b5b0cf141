// The elements of arrays of numbers.
ghost use Rattle.std.specs.Prelude.{◌≡◌};
ghost use Rattle.cb_shapes.specs.Sorts.{sort_of_elements};

use crate::Sort;

/// What the elements of an array of numbers are, by the instructions that load and store them (JVMS §6.5). Those of arrays of
/// booleans and of bytes are loaded and stored alike.
#[derive(Clone, Copy, Debug, Drop, Eq, PartialEq)]
pub enum Elements {
    /// `baload`, `bastore`
    BooleansOrBytes,
    /// `caload`, `castore`
    Chars,
    /// `saload`, `sastore`
    Shorts,
    /// `iaload`, `iastore`
    Ints,
    /// `laload`, `lastore`
    Longs,
}

impl Elements {
    /// The sort of an element on the operand stack.
    pub fn sort(self) -> Sort
        ensures { result ≡ sort_of_elements self }
    {
        match self {
            Elements::Longs => Sort::Long,
            _ => Sort::Int,
        }
    }
}
