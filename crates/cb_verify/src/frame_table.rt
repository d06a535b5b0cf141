// The frames of a method, by their places.
ghost use Rattle.std.specs.Prelude.{◌≡◌, option_copied, IfOk};
ghost use Rattle.cb_verify.specs.Framed.{frame_at_place};

use crate::TypeFrame;
use crate::pass::Frames;
use cb_plain::{OutOfMemory, PlaceTable};
use std::alloc::Global;
use std::marker::Model;

/// The frames before the instructions of a method, and by place, which of them is there. Contracts see it as the list of them, each
/// with its place.
#[derive(Drop)]
pub(crate) struct FrameTable {
    frames: Frames,
    turns: PlaceTable,
}

impl Model for FrameTable {
    ghost use Rattle.std.specs.Prelude.{ℕ, List as Items};
    ghost use Rattle.cb_plain.specs.PlaceTable.{IsTableOf};
    ghost use Rattle.cb_verify.specs.Frames.{Frame};

    ghost Value = { Items (ℕ × Frame) };

    ghost view = { λ table. table.frames };

    ghost invariant = { λ table. IsTableOf table.frames table.turns };
}

impl FrameTable {
    /// The one of these frames. Takes time and memory in their number and the last place. `OutOfMemory` where that was not to be had.
    pub fn of(alloc: Global, frames: Frames) -> Result<Self, OutOfMemory>
        ensures { IfOk result (λ table. table ≡ frames) }
    {
        let turns = PlaceTable::of(alloc, frames.as_slice())?;
        Ok(FrameTable { frames, turns })
    }

    /// The frame at a place.
    pub fn at(&self, pc: u32) -> Option<&TypeFrame>
        ensures { option_copied result ≡ frame_at_place pc self.now }
    {
        let turn = self.turns.index(pc)?;
        let entry = self.frames.as_slice().get(turn as usize)?;
        Some(&entry.1)
    }
}
