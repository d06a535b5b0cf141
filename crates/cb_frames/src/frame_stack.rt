// Frames in slots that are there from the start.
ghost use Rattle.std.specs.Prelude.{◌≡◌, ◌<◌, ◌^◌, [], length, reverse, IfOk};
ghost use Rattle.std.specs.List.{flat_map};
ghost use Rattle.cb_plain.specs.Depth.{has_room};
ghost use Rattle.cb_frames.specs.Entries.{frame_entries};
ghost use Rattle.cb_frames.specs.Held.{with_change};
ghost use Rattle.cb_frames.specs.Tops.{at_place, topmost};

use crate::Frame;
use crate::slot_list::SlotList;
use crate::standing::{Standing, What};
use cb_plain::OutOfMemory;
use std::alloc::Global;
use std::marker::Model;

// So many slots for each frame that there may be.
const SLOTS_EACH: usize = 64;

/// Frames that stand on one another, with the most that may stand. All their slots lie one behind another, those of the lowest frame
/// first, and the free ones may hold anything.
#[derive(Drop)]
pub(crate) struct FrameStack {
    pub(crate) limit: u32,
    pub(crate) slots: SlotList,
    pub(crate) top: Standing,
    // Those below the topmost one are behind the places that are free, the lowest last, and behind it one that is no frame.
    pub(crate) below: Vec<Standing>,
    pub(crate) free: usize,
}

impl Model for FrameStack {
    ghost use Rattle.std.specs.Prelude.{drop, length, map};
    ghost use Rattle.cb_frames.specs.Held.{Held};
    ghost use Rattle.cb_frames.specs.Inner.{frames_in, AreLaid};
    ghost use Rattle.cb_frames.specs.Slots.{value_of};

    ghost Value = { Held };

    ghost view = { λ stack. record { limit = stack.limit; frames = frames_in (map value_of stack.slots) stack.top (drop stack.free stack.below.items) } };

    ghost invariant = { λ stack. AreLaid stack.limit (length stack.slots) stack.top stack.below.items stack.free };
}

impl FrameStack {
    /// No frames, with room for so many.
    pub(crate) fn make(alloc: Global, limit: u32) -> Result<FrameStack, OutOfMemory>
        ensures { IfOk result (λ stack. stack ≡ record { limit = limit; frames = [] }) }
    {
        let count = limit as usize;
        let slots = SlotList::make(alloc, SLOTS_EACH * count)?;
        let below = vec![in alloc; Standing::bottom(); count]?;
        Ok(FrameStack {
            limit,
            slots,
            top: Standing::bottom(),
            below,
            free: count,
        })
    }

    /// No frames, and room for none.
    #[inline(always)]
    pub(crate) fn none(alloc: Global) -> FrameStack {
        FrameStack {
            limit: 0,
            slots: SlotList::none(alloc),
            top: Standing::bottom(),
            below: Vec::new(alloc),
            free: 0,
        }
    }

    /// How many slots the frames have together.
    pub(crate) fn size(&self) -> usize
        ensures entries { result ≡ length (flat_map frame_entries (reverse self.now.frames)) }
        ensures few { result < 2 ^ 39 }
    {
        self.top.end
    }

    /// Whether there is room for a frame of so many slots.
    #[inline(always)]
    pub(crate) fn has_room(&self, slots: usize) -> bool
        requires { slots < 2 ^ 40 }
        ensures { result ≡ has_room self.now.limit self.now.frames slots }
    {
        self.free > 0 && self.top.end + slots <= self.slots.len()
    }

    /// Which frame is the topmost one.
    #[inline(always)]
    pub(crate) fn top(&self) -> Option<Frame>
        ensures { result ≡ topmost self.now.frames }
    {
        if self.free == self.below.len() {
            return None;
        }
        Some(match self.top.what {
            What::Method => Frame::Running {
                method: self.top.number,
                pc: self.top.place,
            },
            What::Class => Frame::Initialising {
                class: self.top.number,
                place: self.top.place,
            },
        })
    }

    /// Puts the topmost frame at a place.
    #[inline(always)]
    pub(crate) fn set_place(&mut self, place: u32)
        ensures { self.new ≡ with_change self.old (at_place place) }
    {
        self.top.place = place;
    }
}
