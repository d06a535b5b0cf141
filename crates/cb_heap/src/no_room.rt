// Why there is no room.

/// Why a store can't have or keep room.
#[derive(Clone, Copy, Debug, Drop, Eq, PartialEq)]
pub enum NoRoom {
    /// The objects that are left leave no room for what is asked for.
    Full {
        /// The words, or blocks of words, that live objects take.
        live: u64,
        /// How many are asked for.
        asked: u64,
        /// How many there may be.
        limit: u64,
    },
    /// The report on a collection couldn't be written, and the store's count of faults rose.
    ReportFault,
    /// Memory was not to be had.
    OutOfMemory,
}
