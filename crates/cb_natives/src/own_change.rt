// What natives do to the text of their own object.

use crate::pieces::{Piece, Text};

/// How the text of a string or of a builder is changed.
#[derive(Clone, Copy, Debug, Drop)]
pub(crate) enum Change {
    /// A string gets an array of the units of a text, so many.
    Sets {
        text: Text,
        size: u32,
    },
    /// A builder gets an array with so much room, with the units of a text in front. So many count.
    Builds {
        text: Text,
        count: u32,
        room: u32,
    },
    /// A piece is written into a builder's array from an index on. So many units count then.
    Writes {
        array: u64,
        from: u32,
        piece: Piece,
        count: u32,
    },
    /// The unit at a place of a builder's array is left out, and those behind it move to the front by one. So many units count then.
    Deletes {
        array: u64,
        place: u32,
        count: u32,
    },
}

/// What a native does to the object at a place, and whether it gives the object back.
#[derive(Clone, Copy, Debug, Drop)]
pub(crate) struct Own {
    pub at: u64,
    pub gives: bool,
    pub change: Change,
}
