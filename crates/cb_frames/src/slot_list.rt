// Slots one behind another.
ghost use Rattle.std.specs.Prelude.{◌≡◌, ◌<◌, [], get_or, length, slice_set, IfOk};

use crate::slot::{Kind, Slot};
use cb_plain::OutOfMemory;
use std::alloc::Global;
use std::marker::Model;

/// Slots that lie one behind another, their kinds in one list and their words in another. Contracts see the list of the slots.
#[derive(Drop)]
pub(crate) struct SlotList {
    kinds: Vec<Kind>,
    words: Vec<u64>,
}

impl Model for SlotList {
    ghost use Rattle.std.specs.Prelude.{◌≡◌, List, length};
    ghost use Rattle.cb_frames.specs.Slots.{slots_with};
    ghost use Rattle.cb_frames.specs.declared.slot.Slot.{Slot};

    ghost Value = { List Slot };

    ghost view = { λ slots. slots_with slots.kinds.items slots.words.items };

    ghost invariant = { λ slots. length slots.kinds.items ≡ length slots.words.items };
}

impl SlotList {
    /// So many slots that hold the int 0.
    pub(crate) fn make(alloc: Global, count: usize) -> Result<SlotList, OutOfMemory>
        ensures { IfOk result (λ slots. length slots ≡ count) }
    {
        let kinds = vec![in alloc; Kind::Int; count]?;
        let words = vec![in alloc; 0; count]?;
        Ok(SlotList { kinds, words })
    }

    /// None.
    #[inline(always)]
    pub(crate) fn none(alloc: Global) -> SlotList
        ensures { result ≡ [] }
    {
        SlotList {
            kinds: Vec::new(alloc),
            words: Vec::new(alloc),
        }
    }

    /// How many there are.
    #[inline(always)]
    pub(crate) fn len(&self) -> usize
        ensures { result ≡ length self.now }
    {
        self.words.len()
    }

    /// The slot at a place.
    #[inline(always)]
    pub(crate) fn get(&self, place: usize) -> Slot
        requires { place < length self.now }
        ensures { result ≡ get_or self.now place result }
    {
        Slot {
            kind: self.kinds[place],
            word: self.words[place],
        }
    }

    /// Puts a slot in the place of one.
    #[inline(always)]
    pub(crate) fn set(&mut self, place: usize, slot: Slot)
        requires { place < length self.old }
        ensures { self.new ≡ slice_set self.old place slot }
    {
        self.kinds[place] = slot.kind;
        self.words[place] = slot.word;
    }
}
