// Values that are moved among slots.
ghost use Rattle.std.specs.Prelude.{◌≡◌, ◌≤◌, ◌<◌, ◌+◌, ◌^◌, length, map, slice_range};
ghost use Rattle.std.specs.List.{flat_map};
ghost use Rattle.cb_plain.specs.Depth.{slots_of};
ghost use Rattle.cb_frames.specs.Inner.{pasted, wiped};
ghost use Rattle.cb_frames.specs.Slots.{value_in, value_of};

use crate::slot::{Kind, Slot};
use crate::slot_list::SlotList;

/// Puts the int 0 into the slots from one place to another.
#[inline(always)]
pub(crate) fn wipe(slots: &mut SlotList, from: usize, to: usize)
    requires order { from ≤ to }
    requires inside { to ≤ length slots.old }
    ensures slots { map value_of slots.new ≡ wiped (map value_of slots.old) from to }
    ensures count { length slots.new ≡ length slots.old }
{
    for i in from..to {
        let blank = Slot {
            kind: Kind::Int,
            word: 0,
        };
        slots.set(i, blank);
    }
}

/// Puts a value into slots from a place on, a long into two, and gives the place behind it.
#[inline(always)]
fn put(slots: &mut SlotList, at: usize, kind: Kind, word: u64) -> usize
    requires few { length slots.old < 2 ^ 63 }
    requires fits { at + length (slots_of (value_in kind word)) ≤ length slots.old }
    ensures slots { map value_of slots.new ≡ pasted (map value_of slots.old) at (slots_of (value_in kind word)) }
    ensures place { result ≡ at + length (slots_of (value_in kind word)) }
    ensures count { length slots.new ≡ length slots.old }
{
    slots.set(at, Slot { kind, word });
    match kind {
        Kind::Long => {
            let blank = Slot {
                kind: Kind::Int,
                word: 0,
            };
            slots.set(at + 1, blank);
            at + 2
        }
        Kind::Int | Kind::Ref => at + 1,
    }
}

/// Puts so many values from a place on into slots further behind, a long into two, and gives the place behind them.
#[inline(always)]
pub(crate) fn spread(slots: &mut SlotList, from: usize, count: usize, to: usize) -> usize
    requires few { length slots.old < 2 ^ 63 }
    requires before { from + count ≤ to }
    requires inside { to + length (flat_map slots_of (slice_range (map value_of slots.old) from (from + count))) ≤ length slots.old }
    ensures slots { map value_of slots.new ≡ pasted (map value_of slots.old) to (flat_map slots_of (slice_range (map value_of slots.old) from (from + count))) }
    ensures place { result ≡ to + length (flat_map slots_of (slice_range (map value_of slots.old) from (from + count))) }
    ensures count { length slots.new ≡ length slots.old }
{
    let mut at = to;
    for i in from..from + count {
        let slot = slots.get(i);
        at = put(slots, at, slot.kind, slot.word);
    }
    at
}
