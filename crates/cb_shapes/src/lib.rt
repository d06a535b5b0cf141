//! What the instructions of the profile do, by shape: instructions of one shape differ by a table alone (JVMS chapter 6).
//!
//! It promises the shape of each instruction by its opcode and operand, and the entries of the tables. Typing and the machine's step go by these
//! shapes, so that each of them has one rule a shape. The definitions are in `specs/`: `Shapes`, with a file for each group of opcodes and
//! each table. No call takes memory, and each takes constant time.
#![tactic(auto)]

mod action;
mod computation;
mod constants;
mod control;
mod elements;
mod math;
mod moves;
mod plain;
mod references;
mod shape;
mod shuffle;
mod sort;
mod targets;
mod test;

pub use action::Action;
pub use computation::Computation;
pub use elements::Elements;
pub use plain::{Plain, PlainOp, plain_told};
pub use shape::action_of;
pub use shuffle::Shuffle;
pub use sort::{Category, Sort};
pub use test::{Condition, Test};
