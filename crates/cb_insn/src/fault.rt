// What is wrong with code.
ghost use Rattle.std.specs.Prelude.{◌≡◌, Some};
ghost use Rattle.cb_insn.specs.Messages.{fault_text};
ghost use Rattle.cb_insn.specs.declared.fault.InsnFault.TheVariants.{OutOfMemory};

use std::alloc::{AllocError, AllocFailed};
use std::error::Error;
use std::fmt;

/// Why some bytes are no code, with the place of the instruction in them. The first `Cut`, `BadOpcode` or `BadOperand`
/// is told, and only where there is none of these the first `BadTarget` (JVMS §4.9.1, chapter 6).
#[derive(Clone, Copy, Debug, PartialEq, Eq)]
pub enum InsnFault {
    /// An opcode that no instruction has.
    BadOpcode { pc: u32 },
    /// An operand that the instruction may not have, also an opcode that `wide` may not stand before.
    BadOperand { pc: u32 },
    /// The bytes end within the instruction.
    Cut { pc: u32 },
    /// A target that is no instruction's place.
    BadTarget { pc: u32 },
    /// No memory was to be had.
    OutOfMemory,
}

/// What is wrong, in words.
impl fmt::Display for InsnFault {
    ghost output = { λ fault. Some (fault_text fault) };

    fn fmt<W: fmt::Write>(&self, f: &mut fmt::Formatter<W>) -> fmt::Result {
        match self {
            InsnFault::BadOpcode { pc } => write!(f, "no instruction's opcode at {pc}"),
            InsnFault::BadOperand { pc } => write!(f, "an operand out of its bounds at {pc}"),
            InsnFault::Cut { pc } => write!(f, "the instruction at {pc} is cut"),
            InsnFault::BadTarget { pc } => {
                write!(f, "a target in no instruction's place at {pc}")
            }
            InsnFault::OutOfMemory => write!(f, "out of memory"),
        }
    }
}

impl Error for InsnFault {}

impl From<AllocError> for InsnFault {
    ghost from_gives = { λ _ error. error ≡ OutOfMemory };

    fn from(_: AllocError) -> Self {
        InsnFault::OutOfMemory
    }
}

impl<T: Drop> From<AllocFailed<T>> for InsnFault {
    ghost from_gives = { λ _ error. error ≡ OutOfMemory };

    fn from(_: AllocFailed<T>) -> Self {
        InsnFault::OutOfMemory
    }
}
