// Why a graph is not condensed.
ghost use Rattle.std.specs.Prelude.{◌≡◌};
ghost use Rattle.cb_dag.specs.declared.fault.DagFault.TheVariants.{OutOfMemory as MemoryFault};

use std::alloc::{AllocError, AllocFailed};
use thiserror::Error;

/// The most parts that a graph may have.
pub const MOST_PARTS: u32 = 4096;

/// The most edges that there may be between parts.
pub const MOST_EDGES: usize = 262_144;

/// Why a graph is not condensed.
#[derive(Clone, Copy, Debug, Eq, Error, PartialEq)]
pub enum DagFault {
    /// There are more than `MOST_PARTS` parts.
    #[error("too many parts")]
    TooManyParts,
    /// There are no more parts than there may be, and more than `MOST_EDGES` edges between them.
    #[error("too many edges")]
    TooManyEdges,
    /// No memory was to be had.
    #[error("out of memory")]
    OutOfMemory,
}

impl From<AllocError> for DagFault {
    ghost from_gives = { λ _ fault. fault ≡ MemoryFault };

    fn from(_: AllocError) -> Self {
        DagFault::OutOfMemory
    }
}

impl<T: Drop> From<AllocFailed<T>> for DagFault {
    ghost from_gives = { λ _ fault. fault ≡ MemoryFault };

    fn from(_: AllocFailed<T>) -> Self {
        DagFault::OutOfMemory
    }
}
