//! Sliding: the second half of a collection of a set of parts, which removes what wasn't marked and moves what stays to the front of its part.
//!
//! It has four passes. First each marked object gets in place of its mark the place that it will have, its forwarding place; then the references of the
//! roots, and then those of the marked objects of the set, are rewritten by these; and at last the objects are moved, in runs of neighbours, and the blocks
//! behind them given back. No reference leads into the set from outside, since edges don't, so that nothing else need be looked at. It takes no memory.
//!
//! Where in the region an object lies is told by the place and the size of the one before it, and where a run of objects is moved by those of what lies before it
//! and before its target: no pass looks at a table but where one block ends and another begins.
//!
//! `specs/` says where objects come to lie (`Slid`), what a part is whose marked objects were moved (`Compact`), what holds in each pass (`Sliding`),
//! and what marking and sliding leave together (`Collected`).
#![tactic(auto)]

mod first;
mod forwarding;
mod law;
mod moving;
mod references;
mod sliding;

pub use law::both_collect;
pub use sliding::slide;
