// Stacks that stay as they are.
ghost use Rattle.std.specs.Prelude.{◌≡◌, ◌<◌, ◌≤◌, ◌↔◌, [], ◌∷◌, drop, length, slice_get, IfOk, IsTrue, Some};

use crate::PersistentArray;
use cb_plain::OutOfMemory;
use std::alloc::Global;
use std::marker::Model;

/// A stack that stays as it is: a change makes another, which shares with it all but a path of a tree. Contracts see it as the list
/// of its items, the topmost first.
#[derive(Drop)]
pub struct PersistentStack<T> {
    // The topmost item is behind the places that are free.
    places: PersistentArray<T>,
    free: usize,
}

impl<T> Model for PersistentStack<T> {
    ghost use Rattle.std.specs.Prelude.{◌^◌, ◌<◌, ◌≤◌, drop, length, List};

    ghost Value = { List T };

    ghost view = { λ stack. drop stack.free stack.places };

    ghost invariant = { λ stack. (stack.free ≤ length stack.places) × (length stack.places < 2 ^ 64) };
}

impl<T: Copy + Drop> PersistentStack<T> {
    /// The stack without items.
    pub fn empty() -> Self
        ensures { result ≡ [] }
    {
        PersistentStack {
            places: PersistentArray::empty(),
            free: 0,
        }
    }

    /// How many items the stack has.
    pub fn len(&self) -> usize
        ensures { result ≡ length self.now }
    {
        self.places.len() - self.free
    }

    /// Whether the stack has no item.
    pub fn is_empty(&self) -> bool
        ensures { IsTrue result ↔ (self.now ≡ []) }
    {
        self.len() == 0
    }

    /// The item at a depth below the length; the topmost one is at 0. Takes time in the logarithm of the greatest length that the
    /// stack and those that it came from had.
    pub fn top(&self, depth: usize) -> T
        requires { depth < length self.now }
        ensures { slice_get self.now depth ≡ Some result }
    {
        self.places.get(self.free + depth)
    }

    /// The stack with one more item at the top. Takes time and memory as `top` takes time. `OutOfMemory` where that room was not to
    /// be had.
    pub fn push(&self, alloc: Global, item: T) -> Result<Self, OutOfMemory>
        ensures { IfOk result (λ stack. stack ≡ item ∷ self.now) }
    {
        if self.free > 0 {
            let free = self.free - 1;
            let places = self.places.with(alloc, free, item)?;
            return Ok(PersistentStack { places, free });
        }
        let count = self.places.len();
        if count == 0 {
            let places = PersistentArray::filled(alloc, 1, item)?;
            return Ok(PersistentStack { places, free: 0 });
        }
        let places = self.places.doubled(alloc, item)?;
        Ok(PersistentStack {
            places,
            free: count - 1,
        })
    }

    /// The stack without so many of its topmost items. Takes no memory, as `share` says.
    pub fn below(&self, count: usize) -> Result<Self, OutOfMemory>
        requires { count ≤ length self.now }
        ensures { IfOk result (λ stack. stack ≡ drop count self.now) }
    {
        let places = self.places.share()?;
        Ok(PersistentStack {
            places,
            free: self.free + count,
        })
    }

    /// The same stack, once more. Takes no memory: an `OutOfMemory` says that a count of references is at its end, which no
    /// machine of 64 bits has the room to reach.
    pub fn share(&self) -> Result<Self, OutOfMemory>
        ensures { IfOk result (λ stack. stack ≡ self.now) }
    {
        self.below(0)
    }
}
