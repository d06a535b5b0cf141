// How much room is asked for.

/// How many words are asked for at an allocation site.
#[derive(Clone, Copy, Debug, Drop, Eq, PartialEq)]
pub struct Want {
    /// The number of the site.
    pub site: u32,
    /// The words of the objects that are placed there, their headers counted.
    pub words: u64,
}
