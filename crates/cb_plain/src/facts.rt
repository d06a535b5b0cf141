// What is known of a part of a heap.

/// What is known of a part of a heap when its survivors are reckoned. All amounts are in words of 64 bits.
#[derive(Clone, Copy, Debug, Drop, Eq, PartialEq)]
pub struct Facts {
    /// How many collections there were.
    pub turn: u64,
    /// The number of the part.
    pub part: u32,
    /// The words of the objects that are kept in it.
    pub used: u64,
    /// Those of them that survived its last collection.
    pub kept: u64,
    /// Those that were placed since.
    pub fresh: u64,
    /// The words that survived its last collection in which there were any.
    pub last_live: u64,
    /// The words that there were before that collection.
    pub last_used: u64,
    /// Whether a static field or a table of the machine may hold an object of the part, or of one to which references lead from it.
    pub held: bool,
}
