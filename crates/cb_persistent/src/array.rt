// Arrays that stay as they are.
ghost use Rattle.std.specs.Prelude.{◌≡◌, ◌^◌, ◌*◌, ◌<◌, ◌↔◌, [], ◌++◌, length, replicate, slice_get, slice_set, IfOk, IsTrue, Some};

use crate::tree::Tree;
use cb_plain::OutOfMemory;
use std::alloc::{AllocError, Global};
use std::marker::Model;

/// An array that stays as it is: a change makes another, which shares with it all but a path of a tree. Contracts see it
/// as the list of its items, in order.
///
/// It has a node of a tree between each two neighbouring items, and a reference to a node is counted. Dropping an array takes
/// time in the nodes that no other array has.
#[derive(Drop)]
pub struct PersistentArray<T> {
    tree: Tree<T>,
    len: usize,
}

impl<T> Model for PersistentArray<T> {
    ghost use Rattle.std.specs.Prelude.{List};

    ghost Value = { List T };

    ghost use Rattle.cb_persistent.specs.Trees.{items, IsBalanced};

    ghost view = { λ array. items array.tree };

    ghost invariant = { λ array. IsBalanced array.len array.tree };
}

impl<T: Copy + Drop> PersistentArray<T> {
    /// The array of these items. Takes time and memory in their number. `OutOfMemory` where its room was not to be had.
    pub fn of(alloc: Global, items: &[T]) -> Result<Self, OutOfMemory>
        ensures { IfOk result (λ array. array ≡ items.now) }
    {
        let tree = Tree::of(alloc, items)?;
        Ok(PersistentArray {
            tree,
            len: items.len(),
        })
    }

    /// The array of so many times one item. Takes time and memory in the logarithm of their number. `OutOfMemory` where its
    /// room was not to be had.
    pub fn filled(alloc: Global, len: usize, item: T) -> Result<Self, OutOfMemory>
        ensures { IfOk result (λ array. array ≡ replicate len item) }
    {
        let tree = if len == 0 {
            Tree::Empty
        } else {
            let (tree, _) = Tree::filled(alloc, len, item)?;
            tree
        };
        Ok(PersistentArray { tree, len })
    }

    /// The array without items.
    pub fn empty() -> Self
        ensures { result ≡ [] }
    {
        PersistentArray {
            tree: Tree::Empty,
            len: 0,
        }
    }

    /// The array with as many times one item in front as it has items. Takes time and memory in the logarithm of the length.
    /// `OutOfMemory` where its room was not to be had.
    pub fn doubled(&self, alloc: Global, item: T) -> Result<Self, OutOfMemory>
        ensures items { IfOk result (λ array. array ≡ replicate (length self.now) item ++ self.now) }
        ensures few { IfOk result (λ array. length array < 2 ^ 64) }
    {
        if self.len == 0 {
            return Ok(PersistentArray::empty());
        }
        if !has_double(self.len) {
            return Err(AllocError);
        }
        let (front, _) = Tree::filled(alloc, self.len, item)?;
        let tree = Tree::both(alloc, front, self.tree.share()?)?;
        Ok(PersistentArray {
            tree,
            len: self.len * 2,
        })
    }

    /// How many items the array has.
    #[tactic(auto, using(crate::proofs::Balance::items_counted))]
    pub fn len(&self) -> usize
        ensures { result ≡ length self.now }
    {
        self.len
    }

    /// Whether the array has no item.
    pub fn is_empty(&self) -> bool
        ensures { IsTrue result ↔ (self.now ≡ []) }
    {
        self.len() == 0
    }

    /// The item at a place below the length. Takes time in the logarithm of the length.
    #[tactic(auto, using(crate::proofs::Balance::items_counted))]
    pub fn get(&self, i: usize) -> T
        requires { i < length self.now }
        ensures { slice_get self.now i ≡ Some result }
    {
        self.tree.get(self.len, i)
    }

    /// The array with another item at a place below the length. Takes time and memory in the logarithm of the length.
    /// `OutOfMemory` where that room was not to be had.
    #[tactic(auto, using(crate::proofs::Balance::items_counted))]
    pub fn with(&self, alloc: Global, i: usize, item: T) -> Result<Self, OutOfMemory>
        requires { i < length self.now }
        ensures { IfOk result (λ array. array ≡ slice_set self.now i item) }
    {
        let tree = self.tree.with(alloc, self.len, i, item)?;
        Ok(PersistentArray {
            tree,
            len: self.len,
        })
    }

    /// The same array, once more. Takes no memory: an `OutOfMemory` says that a count of references is at its end, which no
    /// machine of 64 bits has the room to reach.
    pub fn share(&self) -> Result<Self, OutOfMemory>
        ensures { IfOk result (λ array. array ≡ self.now) }
    {
        let tree = self.tree.share()?;
        Ok(PersistentArray {
            tree,
            len: self.len,
        })
    }
}

/// Whether twice as many items can be counted.
fn has_double(len: usize) -> bool
    ensures { IsTrue result ↔ (len * 2 < 2 ^ 64) }
{
    len <= usize::MAX / 2
}
