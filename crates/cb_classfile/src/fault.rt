// Why bytes gave no class record.
ghost use Rattle.std.specs.Prelude.{◌≡◌, Some};
ghost use Rattle.cb_classfile.specs.declared.fault.Fault.TheVariants.{OutOfMemory as MemoryFault};
ghost use Rattle.cb_classfile.specs.Messages.{class_fault_text, read_fault_text};
ghost use Rattle.cb_classfile.specs.Faults.{class_fault, insn_fault, pool_fault, read_fault};

use crate::Feature;
use cb_insn::InsnFault;
use cb_text::PoolFault;
use std::alloc::{AllocError, AllocFailed};
use std::error::Error;
use std::fmt;

/// Why bytes gave no record of a class file that this machine takes.
#[derive(Clone, Copy, Debug, PartialEq, Eq)]
pub enum ClassFault {
    /// They begin as a class file does, and have a major version other than 50, 51 and 52 (JVMS §4.1).
    BadVersion { major: u16 },
    /// They are no class file.
    Malformed,
    /// They are a class file with an item that this machine leaves out.
    Unsupported { item: Feature },
    /// No memory was to be had.
    OutOfMemory,
}

/// Why bytes gave no record of a class file.
#[derive(Clone, Copy, Debug, PartialEq, Eq)]
pub enum ReadFault {
    /// They begin as a class file does, and have a major version other than 50, 51 and 52 (JVMS §4.1).
    BadVersion { major: u16 },
    /// They are no class file.
    Malformed,
    /// No memory was to be had.
    OutOfMemory,
}

impl fmt::Display for ClassFault {
    ghost output = { λ fault. Some (class_fault_text fault) };

    fn fmt<W: fmt::Write>(&self, f: &mut fmt::Formatter<W>) -> fmt::Result {
        match self {
            ClassFault::BadVersion { major } => write!(f, "a class file of version {major}"),
            ClassFault::Malformed => write!(f, "not a class file"),
            ClassFault::Unsupported { item } => write!(f, "a class file with {item}"),
            ClassFault::OutOfMemory => write!(f, "out of memory"),
        }
    }
}

impl Error for ClassFault {}

impl fmt::Display for ReadFault {
    ghost output = { λ fault. Some (read_fault_text fault) };

    fn fmt<W: fmt::Write>(&self, f: &mut fmt::Formatter<W>) -> fmt::Result {
        match self {
            ReadFault::BadVersion { major } => write!(f, "a class file of version {major}"),
            ReadFault::Malformed => write!(f, "not a class file"),
            ReadFault::OutOfMemory => write!(f, "out of memory"),
        }
    }
}

impl Error for ReadFault {}

/// Why no table was read.
#[derive(Clone, Copy, Debug, PartialEq, Eq)]
pub(crate) enum Fault {
    /// The bytes are none.
    Malformed,
    /// No memory was to be had.
    OutOfMemory,
}

impl From<AllocError> for Fault {
    ghost from_gives = { λ _ fault. fault ≡ MemoryFault };

    fn from(_: AllocError) -> Self {
        Fault::OutOfMemory
    }
}

impl<T: Drop> From<AllocFailed<T>> for Fault {
    ghost from_gives = { λ _ fault. fault ≡ MemoryFault };

    fn from(_: AllocFailed<T>) -> Self {
        Fault::OutOfMemory
    }
}

impl From<InsnFault> for Fault {
    ghost from_gives = { λ insn fault. fault ≡ insn_fault insn };

    fn from(insn: InsnFault) -> Self {
        match insn {
            InsnFault::OutOfMemory => Fault::OutOfMemory,
            _ => Fault::Malformed,
        }
    }
}

impl From<PoolFault> for Fault {
    ghost from_gives = { λ pool fault. fault ≡ pool_fault pool };

    fn from(pool: PoolFault) -> Self {
        match pool {
            PoolFault::BadPool => Fault::Malformed,
            PoolFault::OutOfMemory => Fault::OutOfMemory,
        }
    }
}

impl From<Fault> for ReadFault {
    ghost from_gives = { λ part fault. fault ≡ read_fault part };

    fn from(part: Fault) -> Self {
        match part {
            Fault::Malformed => ReadFault::Malformed,
            Fault::OutOfMemory => ReadFault::OutOfMemory,
        }
    }
}

impl From<ReadFault> for ClassFault {
    ghost from_gives = { λ unread fault. fault ≡ class_fault unread };

    fn from(unread: ReadFault) -> Self {
        match unread {
            ReadFault::BadVersion { major } => ClassFault::BadVersion { major },
            ReadFault::Malformed => ClassFault::Malformed,
            ReadFault::OutOfMemory => ClassFault::OutOfMemory,
        }
    }
}
