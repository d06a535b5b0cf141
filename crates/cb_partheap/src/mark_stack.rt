// The objects that marking has yet to look at.
ghost use Rattle.std.specs.Prelude.{◌≡◌, ◌<◌, [], ◌∷◌, length, IfOk, MatchOption};
ghost use Rattle.cb_partheap.specs.Stacks.{pushed};

use cb_plain::OutOfMemory;
use std::alloc::Global;
use std::marker::Model;

/// Places of objects, of which the one that was put there last is taken first. It has all its room from the start. Contracts see it as the
/// list of its places, that one in front, and how many there may be.
#[derive(Drop)]
pub struct MarkStack {
    places: Vec<u64>,
    room: usize,
}

impl Model for MarkStack {
    ghost use Rattle.std.specs.Prelude.{◌≤◌, length, reverse};
    ghost use Rattle.std.specs.Vec.{vec_capacity};
    ghost use Rattle.cb_partheap.specs.Stacks.{Stacked};

    ghost Value = { Stacked };

    ghost view = { λ stack. record { places = reverse stack.places.items; room = stack.room } };

    ghost invariant = { λ stack. stack.room ≤ vec_capacity stack.places };
}

impl MarkStack {
    /// A stack without places, with room for so many. `OutOfMemory` where that was not to be had.
    pub fn make(alloc: Global, room: usize) -> Result<MarkStack, OutOfMemory>
        ensures { IfOk result (λ stack. stack ≡ record { places = []; room = room }) }
    {
        let places = Vec::with_capacity(alloc, room)?;
        Ok(MarkStack { places, room })
    }

    /// Puts a place on the stack, which has room for it. Takes no memory.
    pub fn push(&mut self, at: u64)
        requires { length self.old.places < self.old.room }
        ensures { self.new ≡ pushed at self.old }
    {
        self.places.push_reserved(at);
    }

    /// Takes the place that was put there last, if there is one.
    pub fn pop(&mut self) -> Option<u64>
        ensures { MatchOption result ((self.old.places ≡ []) × (self.new ≡ self.old)) (λ at. self.old ≡ pushed at self.new) }
    {
        self.places.pop()
    }
}
