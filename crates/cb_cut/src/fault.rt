// Why a flow doesn't show that a set is closed and gains the most.
use thiserror::Error;

/// Why a flow doesn't show that a set is closed and that no closed set gains more.
#[derive(Clone, Copy, Debug, Eq, Error, PartialEq)]
pub enum CutFault {
    /// An edge leads to a part of the set from one that isn't in it.
    #[error("edge {edge} leads into the set")]
    NotClosed {
        /// The first of these edges.
        edge: u32,
    },
    /// More flows from the source to a part than its gain, or from a part to the sink than its gain is below 0.
    #[error("arc {arc} is over its capacity")]
    OverCapacity {
        /// The first such arc: those from the source are numbered by their parts, and then those to the sink.
        arc: u32,
    },
    /// More or less flows into a part than out of it.
    #[error("as much doesn't flow into part {part} as out of it")]
    Unbalanced {
        /// The first such part.
        part: u32,
    },
    /// The set gains less than the flow bounds.
    #[error("the set gains {gain}, and the bound is {bound}")]
    Unequal {
        /// What the set gains.
        gain: i128,
        /// The positive gains, less what flows from the source.
        bound: i128,
    },
}
