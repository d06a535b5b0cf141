// Balanced trees that share their parts.
ghost use Rattle.std.specs.Prelude.{◌≡◌, ℕ, ◌+◌, ◌-◌, ◌/◌, ◌<◌, ◌≤◌, ◌++◌, length, replicate, slice_get, slice_set, IfOk, Some};
ghost use Rattle.cb_persistent.specs.Trees.{items, IsBalanced, IsTreeOf};

use cb_plain::OutOfMemory;
use std::alloc::Global;
use std::rc::Rc;

/// Items in order. The number of the items tells the way down to each: the left half has half of them, rounded down.
#[cycle(tree)]
#[derive(Drop)]
pub(crate) enum Tree<T> {
    Empty,
    One(T),
    Both(Rc<Halves<T>>),
}

#[cycle(tree)]
#[derive(Drop)]
pub(crate) struct Halves<T> {
    left: Tree<T>,
    right: Tree<T>,
}

impl<T: Copy + Drop> Tree<T> {
    /// The tree of these items.
    pub fn of(alloc: Global, given: &[T]) -> Result<Tree<T>, OutOfMemory>
        ensures { IfOk result (λ tree. IsTreeOf given.now tree) }
    {
        match given {
            [] => Ok(Tree::Empty),
            [item] => Ok(Tree::One(*item)),
            _ => {
                let middle = given.len() / 2;
                let left = Tree::of(alloc, &given[..middle])?;
                let right = Tree::of(alloc, &given[middle..])?;
                Tree::both(alloc, left, right)
            }
        }
    }

    /// The trees of so many times one item, and of one more. Their halves are the same, so that one node a level is enough
    /// for each.
    pub fn filled(alloc: Global, len: usize, item: T) -> Result<(Tree<T>, Tree<T>), OutOfMemory>
        requires { 0 < len }
        ensures less { IfOk result (λ trees. IsTreeOf (replicate len item) trees.0) }
        ensures more { IfOk result (λ trees. IsTreeOf (replicate (len + 1) item) trees.1) }
    {
        if len == 1 {
            let two = Tree::both(alloc, Tree::One(item), Tree::One(item))?;
            return Ok((Tree::One(item), two));
        }
        let (less, more) = Tree::filled(alloc, len / 2, item)?;
        if len % 2 == 0 {
            let even = Tree::both(alloc, less.share()?, less.share()?)?;
            let odd = Tree::both(alloc, less, more)?;
            Ok((even, odd))
        } else {
            let odd = Tree::both(alloc, less, more.share()?)?;
            let even = Tree::both(alloc, more.share()?, more)?;
            Ok((odd, even))
        }
    }

    /// The tree with these halves.
    pub fn both(alloc: Global, left: Tree<T>, right: Tree<T>) -> Result<Tree<T>, OutOfMemory>
        ensures items { IfOk result (λ tree. items tree ≡ items left ++ items right) }
        ensures balanced { IfOk result (λ tree. (len : ℕ) → 2 ≤ len → IsBalanced (len / 2) left → IsBalanced (len - len / 2) right → IsBalanced len tree) }
    {
        let halves = Rc::new(alloc, Halves { left, right })?;
        Ok(Tree::Both(halves))
    }

    /// The item at a place.
    #[tactic(auto, using(crate::proofs::Balance::items_counted, crate::proofs::Places::get_right))]
    pub fn get(&self, len: usize, i: usize) -> T
        requires balanced { IsBalanced len self.now }
        requires within { i < len }
        ensures { slice_get (items self.now) i ≡ Some result }
    {
        match self {
            Tree::Empty => unreachable!(),
            Tree::One(item) => *item,
            Tree::Both(halves) => {
                let middle = len / 2;
                if i < middle {
                    halves.left.get(middle, i)
                } else {
                    halves.right.get(len - middle, i - middle)
                }
            }
        }
    }

    /// The tree with another item at a place.
    pub fn with(&self, alloc: Global, len: usize, i: usize, item: T) -> Result<Tree<T>, OutOfMemory>
        requires balanced { IsBalanced len self.now }
        requires within { i < len }
        ensures balanced { IfOk result (λ tree. IsBalanced len tree) }
        ensures items { IfOk result (λ tree. items tree ≡ slice_set (items self.now) i item) }
    {
        match self {
            Tree::Empty => unreachable!(),
            Tree::One(_) => Ok(Tree::One(item)),
            Tree::Both(halves) => {
                let middle = len / 2;
                if i < middle {
                    let left = halves.left.with(alloc, middle, i, item)?;
                    let right = halves.right.share()?;
                    Tree::both(alloc, left, right)
                } else {
                    let left = halves.left.share()?;
                    let right = halves.right.with(alloc, len - middle, i - middle, item)?;
                    Tree::both(alloc, left, right)
                }
            }
        }
    }

    /// The same tree, by another reference to its root.
    pub fn share(&self) -> Result<Tree<T>, OutOfMemory>
        ensures items { IfOk result (λ tree. items tree ≡ items self.now) }
        ensures balanced { IfOk result (λ tree. (len : ℕ) → IsBalanced len self.now → IsBalanced len tree) }
    {
        match self {
            Tree::Empty => Ok(Tree::Empty),
            Tree::One(item) => Ok(Tree::One(*item)),
            Tree::Both(halves) => Ok(Tree::Both(halves.clone()?)),
        }
    }
}
