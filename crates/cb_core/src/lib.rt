//! The records of the library's classes: Object, strings, boxes, throwables and the like, fifty in all, as class records like those of a folder.
//!
//! It promises that each record has the members of its row in the table of `cb_library` and no others, and would be read from its own bytes; and
//! that they are the records of `specs/Recorded.antt`, with each constant where it stands. The table stands here a second time, as data of the
//! program (`row`, and the files named for the table's), and the check compares the two. `record` makes a class record of a row. The other files
//! of `specs/` are for the crate's own proofs.
#![tactic(auto)]

mod body;
mod boxes;
mod classes;
mod code;
mod constants;
mod flags;
mod frame;
mod insn;
mod instructions;
mod lang;
mod members;
mod names;
mod record;
mod row;
mod rows;
mod text;
mod throwables;
mod words;

pub use classes::core_classes;
