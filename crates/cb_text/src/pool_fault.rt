// Why bytes gave no constant pool.
ghost use Rattle.std.specs.Prelude.{◌≡◌, Some};
ghost use Rattle.cb_text.specs.Messages.{pool_fault_text};
ghost use Rattle.cb_text.specs.Pool.{pool_fault};
ghost use Rattle.cb_text.specs.declared.pool_fault.PoolFault.TheVariants.{OutOfMemory as MemoryFault};

use crate::TextFault;
use std::alloc::{AllocError, AllocFailed};
use std::error::Error;
use std::fmt;

/// Why bytes gave no constant pool.
#[derive(Clone, Copy, Debug, PartialEq, Eq)]
pub enum PoolFault {
    /// No constant pool is a front of the bytes.
    BadPool,
    /// No memory was to be had.
    OutOfMemory,
}

impl fmt::Display for PoolFault {
    ghost output = { λ fault. Some (pool_fault_text fault) };

    fn fmt<W: fmt::Write>(&self, f: &mut fmt::Formatter<W>) -> fmt::Result {
        f.write_str(match self {
            PoolFault::BadPool => "not a constant pool",
            PoolFault::OutOfMemory => "out of memory",
        })
    }
}

impl Error for PoolFault {}

impl From<AllocError> for PoolFault {
    ghost from_gives = { λ _ fault. fault ≡ MemoryFault };

    fn from(_: AllocError) -> Self {
        PoolFault::OutOfMemory
    }
}

impl<T: Drop> From<AllocFailed<T>> for PoolFault {
    ghost from_gives = { λ _ fault. fault ≡ MemoryFault };

    fn from(_: AllocFailed<T>) -> Self {
        PoolFault::OutOfMemory
    }
}

impl From<TextFault> for PoolFault {
    ghost from_gives = { λ text fault. fault ≡ pool_fault text };

    fn from(text: TextFault) -> Self {
        match text {
            TextFault::BadText => PoolFault::BadPool,
            TextFault::OutOfMemory => PoolFault::OutOfMemory,
        }
    }
}
