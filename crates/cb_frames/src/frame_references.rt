// What the slots of frames refer to.
ghost use Rattle.std.specs.Prelude.{◌≡◌, ◌<◌, drop, length, map, reverse, slice_get, slice_index, slice_set, Some};
ghost use Rattle.std.specs.List.{flat_map};
ghost use Rattle.cb_frames.specs.Entries.{frame_entries, nulled_frame, referent};
ghost use Rattle.cb_frames.specs.Inner.{used_to, AreStacked};

use crate::frame_stack::FrameStack;
use crate::slot::{Kind, Slot, reference_in};
use crate::standing::Standing;
use cb_plain::Value;

/// What a value refers to, 0 where it is null or a number.
pub(crate) fn refers_to(value: Value) -> u64
    ensures { result ≡ referent value }
{
    match value {
        Value::Ref(to) => to,
        Value::Int(_) | Value::Long(_) => 0,
    }
}

/// Where the used slots end in the frame that a slot belongs to, by the topmost frame and those below it, which are behind the places that
/// are free. Takes time in the logarithm of the frames.
fn used_to(top: &Standing, below: &[Standing], free: usize, slot: usize) -> usize
    requires stacked { AreStacked top.now (drop free below.now) }
    requires there { slot < top.now.end }
    ensures { result ≡ used_to top.now (drop free below.now) slot }
{
    if top.base <= slot {
        return top.next;
    }
    let mut low = free;
    let mut high = below.len() - 1;
    while low < high {
        let middle = low + (high - low) / 2;
        if below[middle].base <= slot {
            high = middle;
        } else {
            low = middle + 1;
        }
    }
    below[low].next
}

impl FrameStack {
    /// What the slot at a place refers to, the slots of the lowest frame first; 0 where it is free. Takes time in the logarithm of the
    /// frames.
    pub(crate) fn reference(&self, i: usize) -> u64
        requires { i < length (flat_map frame_entries (reverse self.now.frames)) }
        ensures { slice_get (flat_map frame_entries (reverse self.now.frames)) i ≡ Some result }
    {
        if i >= used_to(&self.top, &self.below, self.free, i) {
            return 0;
        }
        let slot = self.slots.get(i);
        reference_in(slot.kind, slot.word)
    }

    /// Lets a slot that refers to something refer to something else.
    pub(crate) fn set_reference(&mut self, i: usize, to: u64)
        requires { 0 < slice_index (flat_map frame_entries (reverse self.old.frames)) i }
        ensures entry { flat_map frame_entries (reverse self.new.frames) ≡ slice_set (flat_map frame_entries (reverse self.old.frames)) i to }
        ensures rest { map nulled_frame self.new.frames ≡ map nulled_frame self.old.frames }
        ensures limit { self.new.limit ≡ self.old.limit }
    {
        let slot = Slot {
            kind: Kind::Ref,
            word: to,
        };
        self.slots.set(i, slot);
    }
}
