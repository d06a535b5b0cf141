//! Arrays and stacks that stay as they are: a change makes another, which shares with the old one all but a path of a tree
//! (Driscoll, Sarnak, Sleator and Tarjan 1989).
//!
//! It promises that each array and stack is the list that its calls say; contracts see nothing else, and only `Trees` in `specs/` is behind
//! that. It doesn't promise that memory is to be had: that no call always gives up is shown by tests alone. Nor does a clause speak of what
//! two arrays share.
#![tactic(auto)]

mod array;
mod stack;
mod tree;

pub use array::PersistentArray;
pub use stack::PersistentStack;
