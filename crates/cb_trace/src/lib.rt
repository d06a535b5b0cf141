//! Marking: the first half of a collection of a set of parts, which finds what of it is to stay.
//!
//! The set has with each part those from which edges lead there, so that a path from the roots to an object of the set lies in it from where it
//! enters it: nothing outside is looked at. An object is marked when it is found, and waits on the heap's stack until what it refers to was
//! marked as well. That takes no memory and no recursion: the stack has room for a third of all words, and an object takes at least three.
//!
//! No clause sees a word that is read. That no part outside the set is looked into is to be read in `mark_reference`, which asks the set before it
//! looks at an object.
//!
//! What marks are, and when they are those of what is reached, is said in `cb_partheap` (`Marks`), with what that says of a collection (`MarkLaws`).
//! `specs/Marking.antt` says what holds while objects wait.
#![tactic(auto)]

mod marking;
mod reference;

pub use marking::mark;
