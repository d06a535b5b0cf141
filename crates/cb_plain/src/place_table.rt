// Which item stands at a place.
ghost use Rattle.std.specs.Prelude.{◌≡◌, ◌==◌, ◌<◌, ◌^◌, ◌-◌, ℕ, length, IfOk, OnOk};
ghost use Rattle.cb_plain.specs.PlaceTable.{IsTableOf, answered};
ghost use Rattle.cb_plain.specs.InnerPlaces.{entered, index_in};

use crate::{OutOfMemory, number_of};
use std::alloc::Global;
use std::marker::Model;

/// By place, the index of the first of some items that stands there. Contracts see it as the list of these by place: none where no item
/// stands, and none past its end.
#[derive(Drop)]
pub struct PlaceTable {
    row: Vec<u32>,
}

impl Model for PlaceTable {
    ghost use Rattle.std.specs.Prelude.{ℕ, List, Option, map};
    ghost use Rattle.cb_plain.specs.InnerPlaces.{known};

    ghost Value = { List (Option ℕ) };

    ghost view = { λ table. map known table.row.items };
}

impl PlaceTable {
    /// The one of these items, each with its place. Takes time and memory in their number and the last place. `OutOfMemory` where
    /// that was not to be had.
    pub fn of<T>(alloc: Global, items: &[(u32, T)]) -> Result<Self, OutOfMemory>
        ensures { IfOk result (IsTableOf items.now) }
    {
        number_of(items.len())?;
        let mut row = Vec::new(alloc);
        for (index, item) in items.iter().enumerate() {
            enter(&mut row, item.0, index as u32)?;
        }
        Ok(PlaceTable { row })
    }

    /// The index of the first item that stands at a place, if one does.
    pub fn index(&self, place: u32) -> Option<u32>
        ensures { result ≡ answered self.now place }
    {
        let index = *self.row.get(place as usize)?;
        if index < u32::MAX { Some(index) } else { None }
    }
}

/// Enters an index at a place, unless one is there.
fn enter(row: &mut Vec<u32>, place: u32, index: u32) -> Result<(), OutOfMemory>
    requires { index < 2 ^ 32 - 1 }
    ensures { OnOk result ((other : ℕ) → index_in row.new.items other ≡ entered (index_in row.old.items other) (place == other) index) }
{
    let at = place as usize;
    reach(row, at)?;
    if row[at] == u32::MAX {
        row[at] = index;
    }
    Ok(())
}

/// Makes a row so long that it has a number at a place.
fn reach(row: &mut Vec<u32>, place: usize) -> Result<(), OutOfMemory>
    ensures long { OnOk result (place < length row.new.items) }
    ensures same { OnOk result ((other : ℕ) → index_in row.new.items other ≡ index_in row.old.items other) }
{
    while row.len() <= place {
        row.push(u32::MAX)?;
    }
    Ok(())
}
