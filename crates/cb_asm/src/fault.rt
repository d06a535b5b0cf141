// Why a text gave no class record.
ghost use Rattle.std.specs.Prelude.{◌≡◌, Some};
ghost use Rattle.cb_asm.specs.declared.fault.AsmFault.TheVariants.{OutOfMemory as MemoryFault};
ghost use Rattle.cb_asm.specs.Messages.{fault_text};

use std::alloc::{AllocError, AllocFailed};
use std::error::Error;
use std::fmt;

/// Why a text gave no class record.
#[derive(Clone, Copy, Debug, PartialEq, Eq)]
pub enum AsmFault {
    /// This line, counted from 1, is the first that is outside the format. The line behind the last is that of a text
    /// that stops early. A line past 2^32 - 1 has that number.
    BadLine { line: u32 },
    /// No memory was to be had.
    OutOfMemory,
}

impl fmt::Display for AsmFault {
    ghost output = { λ fault. Some (fault_text fault) };

    fn fmt<W: fmt::Write>(&self, f: &mut fmt::Formatter<W>) -> fmt::Result {
        match self {
            AsmFault::BadLine { line } => write!(f, "bad line {line}"),
            AsmFault::OutOfMemory => write!(f, "out of memory"),
        }
    }
}

impl Error for AsmFault {}

impl From<AllocError> for AsmFault {
    ghost from_gives = { λ _ fault. fault ≡ MemoryFault };

    fn from(_: AllocError) -> Self {
        AsmFault::OutOfMemory
    }
}

impl<T: Drop> From<AllocFailed<T>> for AsmFault {
    ghost from_gives = { λ _ fault. fault ≡ MemoryFault };

    fn from(_: AllocFailed<T>) -> Self {
        AsmFault::OutOfMemory
    }
}
