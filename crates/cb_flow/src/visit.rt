// Parts that a search comes to.

/// How more could flow to a part.
#[derive(Clone, Copy, PartialEq, Eq)]
pub(crate) enum Way {
    /// From the source.
    FromSource,
    /// From the part to which an edge leads on to the one from which it leads.
    Onwards,
    /// From the part from which an edge leads to the other, by giving back what flows against it.
    GivenBack,
}

/// A part to which more could flow: how, along which edge, from which visit, and how much.
#[derive(Clone, Copy)]
pub(crate) struct Visit {
    pub part: u32,
    pub way: Way,
    pub edge: u32,
    pub parent: u32,
    pub room: u64,
}
