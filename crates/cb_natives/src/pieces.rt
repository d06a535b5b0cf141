// Texts that natives make, in pieces, none of which takes memory.

/// Units of a text.
#[derive(Clone, Copy, Debug, Drop)]
pub(crate) enum Piece {
    /// So many units of an array of chars, from an index on. The array's place is 0 where there is none.
    Range { array: u64, from: u32, count: u32 },
    /// All units of an array of chars, with another one in place of each that is the old one.
    Replaced { array: u64, old: u16, new: u16 },
    /// The first of these units, so many.
    Short { units: [u16; 24], count: u32 },
    /// The name of a kind as `Class.getName` has it.
    Name(u32),
    /// So many zeros.
    Zeros(u32),
}

/// A text: its pieces one after the other.
#[derive(Clone, Copy, Debug, Drop)]
pub(crate) struct Text {
    pub first: Piece,
    pub second: Piece,
    pub third: Piece,
}
