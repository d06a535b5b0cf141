// Why nothing is told of a row.
use std::alloc::{AllocError, AllocFailed};
use std::error::Error;
use std::fmt;

/// Why nothing is told of a line of the text.
#[derive(Clone, Copy, Debug, PartialEq, Eq)]
pub enum Trouble {
    /// It is none of the lines that there are, or a row that its table doesn't have.
    NotUnderstood,
    /// A call refused what stands in it, and the table has no words for that.
    Refused,
    /// No memory was to be had.
    OutOfMemory,
}

impl fmt::Display for Trouble {
    fn fmt<W: fmt::Write>(&self, f: &mut fmt::Formatter<W>) -> fmt::Result {
        let words = match self {
            Trouble::NotUnderstood => "is not understood",
            Trouble::Refused => "is refused",
            Trouble::OutOfMemory => "wants more memory than there is",
        };
        f.write_str(words)
    }
}

impl Error for Trouble {}

impl From<AllocError> for Trouble {
    fn from(_: AllocError) -> Self {
        Trouble::OutOfMemory
    }
}

impl<T: Drop> From<AllocFailed<T>> for Trouble {
    fn from(_: AllocFailed<T>) -> Self {
        Trouble::OutOfMemory
    }
}
