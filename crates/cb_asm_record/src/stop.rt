// Why a program got no record.
ghost use Rattle.std.specs.Prelude.{◌≡◌};
ghost use Rattle.cb_asm_record.specs.declared.stop.Stop.TheVariants.{OutOfMemory as MemoryStop};

use std::alloc::{AllocError, AllocFailed};

/// Why a program got no record.
#[derive(Clone, Copy, Debug, PartialEq, Eq)]
pub(crate) enum Stop {
    /// It has none that is well formed, or its labels don't stand as they should.
    NoRecord,
    /// No memory was to be had.
    OutOfMemory,
}

impl From<AllocError> for Stop {
    ghost from_gives = { λ _ stop. stop ≡ MemoryStop };

    fn from(_: AllocError) -> Self {
        Stop::OutOfMemory
    }
}

impl<T: Drop> From<AllocFailed<T>> for Stop {
    ghost from_gives = { λ _ stop. stop ≡ MemoryStop };

    fn from(_: AllocFailed<T>) -> Self {
        Stop::OutOfMemory
    }
}
