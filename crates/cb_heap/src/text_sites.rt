// Where strings are placed.

/// The site of strings and their kind, and those of the arrays of their characters.
#[derive(Clone, Copy, Debug, Drop, Eq, PartialEq)]
pub struct TextSites {
    /// The site of the strings.
    pub site: u32,
    /// Their kind.
    pub kind: u32,
    /// The site of the arrays.
    pub characters: u32,
    /// The kind of the arrays.
    pub array: u32,
}
