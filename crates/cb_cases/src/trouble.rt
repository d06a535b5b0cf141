// Why a line of the text does nothing.
use cb_asm::AsmFault;
use std::alloc::{AllocError, AllocFailed};
use std::error::Error;
use std::fmt;

/// Why a line of the text does nothing.
#[derive(Clone, Copy, Debug, PartialEq, Eq)]
pub(crate) enum Trouble {
    /// It is none of the lines that there are.
    NotUnderstood,
    /// It stands outside of a case.
    OutsideOfCase,
    /// It adds to bytes, and no line before it said to which.
    OutsideOfBytes,
    /// It begins a case or ends the text, and the case before it ran no command.
    NothingRun,
    /// It ends the text, and a repetition has no end.
    EndlessRepeat,
    /// No bytes have the name.
    UnknownName,
    /// There is no such file beside the program.
    UnknownData,
    /// There are fewer bytes than it takes away.
    TooFew,
    /// The bytes are no text of the assembly format, of which this line is the first bad one.
    BadAssembly { line: u32 },
    /// There are more words than the machine is given, or one is too long.
    TooManyWords,
    /// The library has no class of this number.
    UnknownClass,
    /// It asks, and the case has linked no program.
    NothingLinked,
    /// It asks for something that the program doesn't have.
    UnknownInProgram,
    /// No memory was to be had.
    OutOfMemory,
}

impl fmt::Display for Trouble {
    fn fmt<W: fmt::Write>(&self, f: &mut fmt::Formatter<W>) -> fmt::Result {
        let words = match self {
            Trouble::NotUnderstood => "is not understood",
            Trouble::OutsideOfCase => "stands outside of a case",
            Trouble::OutsideOfBytes => "adds to no bytes",
            Trouble::NothingRun => "stands behind a case that ran nothing",
            Trouble::EndlessRepeat => "ends a text in which a repetition has no end",
            Trouble::UnknownName => "names no bytes",
            Trouble::UnknownData => "names no file of the data",
            Trouble::TooFew => "takes away more than there is",
            Trouble::BadAssembly { line } => {
                return write!(f, "assembles a text whose line {line} is bad");
            }
            Trouble::TooManyWords => "is given too many words",
            Trouble::UnknownClass => "names no class of the library",
            Trouble::NothingLinked => "asks, and no program is linked",
            Trouble::UnknownInProgram => "asks for what the program doesn't have",
            Trouble::OutOfMemory => "wants more memory than there is",
        };
        f.write_str(words)
    }
}

impl Error for Trouble {}

impl From<AllocError> for Trouble {
    fn from(_: AllocError) -> Self {
        Trouble::OutOfMemory
    }
}

impl<T: Drop> From<AllocFailed<T>> for Trouble {
    fn from(_: AllocFailed<T>) -> Self {
        Trouble::OutOfMemory
    }
}

impl From<AsmFault> for Trouble {
    fn from(fault: AsmFault) -> Self {
        match fault {
            AsmFault::BadLine { line } => Trouble::BadAssembly { line },
            AsmFault::OutOfMemory => Trouble::OutOfMemory,
        }
    }
}
