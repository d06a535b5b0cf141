// A cell of a store of cells.
ghost use Rattle.std.specs.Prelude.{◌≡◌};
ghost use Rattle.cb_store_tests.specs.Marks.{referent_of};

/// A cell, which has one word.
#[derive(Clone, Copy, Debug, Drop)]
pub struct Cell {
    /// Whether its object is kept.
    pub kept: bool,
    /// Its site.
    pub site: u32,
    /// Whether its word holds a reference.
    pub linked: bool,
    /// Its word.
    pub word: u64,
}

impl Cell {
    /// What its object refers to, 0 where it refers to none.
    pub fn referent(&self) -> u64
        ensures { result ≡ referent_of self.now }
    {
        if self.kept && self.linked {
            self.word
        } else {
            0
        }
    }
}
