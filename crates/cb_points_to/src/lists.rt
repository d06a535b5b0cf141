// Lists by number.
ghost use Rattle.std.specs.Prelude.{◌≡◌, ◌<◌, [], length, replicate, IfOk, OnOk, OnErr};
ghost use Rattle.std.specs.Prelude.{slice_index_or};
ghost use Rattle.cb_points_to.specs.Lists.{pushed};

use cb_plain::{List, OutOfMemory};
use std::alloc::Global;
use std::marker::Model;

/// A list for each of some numbers, counted from 0.
#[derive(Drop)]
pub(crate) struct Lists<T> {
    rows: Vec<List<T>>,
}

impl<T> Model for Lists<T> {
    ghost use Rattle.std.specs.Prelude.{List as Items};

    ghost Value = { Items (Items T) };

    ghost view = { λ lists. lists.rows.items };
}

impl<T> Lists<T> {
    /// So many lists without items. `OutOfMemory` where memory was not to be had.
    pub fn make(alloc: Global, count: u32) -> Result<Self, OutOfMemory>
    where
        T: Drop,
        ensures { IfOk result (λ lists. lists ≡ replicate count []) }
    {
        let mut rows = Vec::new(alloc);
        for _row in 0..count {
            rows.push(List::new(alloc))?;
        }
        Ok(Lists { rows })
    }

    /// The list of a number.
    pub fn row(&self, at: u32) -> &List<T>
        requires { at < length self.now }
        ensures { result.now ≡ slice_index_or self.now at [] }
    {
        &self.rows[at as usize]
    }

    /// Adds an item at the end of the list of a number.
    pub fn push_at(&mut self, at: u32, item: T) -> Result<(), OutOfMemory>
    where
        T: Drop,
        requires { at < length self.old }
        ensures { OnOk result (self.new ≡ pushed self.old at item) }
    {
        let row = &mut self.rows[at as usize];
        row.push(item)
    }
}
