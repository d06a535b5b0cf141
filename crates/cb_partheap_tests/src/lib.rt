//! What shows how the heap in parts is used, and what its tests share. That its calls are those of a store is shown by one over it that never lets an
//! object go (`Resting`), and that a crate above may open it, by marks that are put while it is open (`mark`). A `Tried` is a heap with the places of all its
//! objects, whose calls test their conditions; the functions beside it read heaps and requests from rows of a text. It is tried by `cb_memory_cases` and
//! `cb_collection_cases`.
#![tactic(auto)]

mod marking;
mod resting;
mod rows;
mod tried;

pub use marking::mark;
pub use resting::Resting;
pub use rows::{link, make_heap, next_number, parts_of_sites, read_heap, read_request};
pub use tried::{Tried, word_mark};
