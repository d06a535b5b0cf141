// How much room roots take.

/// How many frames there may be, and how many static fields, texts of strings, kinds and classes a program has.
#[derive(Clone, Copy, Debug, Drop, Eq, PartialEq)]
pub struct RootSizes {
    /// The most frames that stand at once. Each has 64 slots on average.
    pub frames: u32,
    /// The static fields of all classes.
    pub statics: u32,
    /// The texts of string constants.
    pub constants: u32,
    /// The kinds of objects.
    pub kinds: u32,
    /// The classes.
    pub classes: u32,
}
