// That there are too many frames.

/// There is no room for another frame: as many stand as may, or those that stand leave too few slots.
#[derive(Clone, Copy, Debug, Drop, Eq, PartialEq)]
pub struct Deep;
