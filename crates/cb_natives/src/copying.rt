// What natives copy.

/// A copy of the words of an object that a native makes.
#[derive(Clone, Copy, Debug, Drop)]
pub(crate) enum Copying {
    /// A copy of an object, whose words are so many, is placed at a site as an object of a kind, and given. There are none where the
    /// object's place is 0.
    Gives {
        from: u64,
        site: u32,
        kind: u32,
        size: u32,
    },
    /// The exception at a place gets a new array of those that it suppressed, which are so many, and another one. There are none where the
    /// place of the array so far is 0.
    Adds {
        at: u64,
        from: u64,
        other: u64,
        size: u32,
    },
}
