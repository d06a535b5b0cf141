//! The report on the collections of a run: a header, and a record for each collection, in order. `specs/` says their text (`Text`), with an example (`Example`).
#![tactic(auto)]

mod law;

pub use law::an_example;
