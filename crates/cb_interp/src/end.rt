// How a run ends.

/// How a run ends.
#[derive(Clone, Copy, Debug, Drop, Eq, PartialEq)]
pub enum End {
    /// `main` has returned.
    Returned,
    /// `exit` was called with this status.
    Exited(i32),
    /// An exception found no handler.
    Uncaught {
        /// The number of its class.
        class: u32,
        /// Its place in the store.
        at: u64,
    },
    /// As many steps were made as there may be, and the run hasn't ended.
    BudgetSpent,
    /// The objects that are left leave no room for what the next step places.
    HeapFull {
        /// The words, or blocks of words, that live objects take.
        live: u64,
        /// How many are asked for.
        asked: u64,
        /// How many there may be.
        limit: u64,
    },
    /// The report on a collection couldn't be written.
    ReportFault,
    /// A call of the input failed.
    InputFault,
    /// A write of what a step prints failed.
    OutputFault,
    /// Memory was not to be had.
    OutOfMemory,
}
