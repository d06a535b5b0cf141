//! The verifier by type checking (JVMS §4.10.1).
//!
//! `verify` promises that a program is accepted exactly if it is typed, with the frame before each instruction, and otherwise names the first method
//! that isn't and the least of its places that fails. `specs/` has a file a notion: verification types and frames (`Types`, `Frames`), what a
//! method's instructions are typed in (`Within`), what each instruction leaves of a frame (`Rules`, `Calls`, `Leaving`, with `Members`), the
//! frames that a method declares (`Expansion`), and whether a program is typed (`Typed`, with `Framed` and `Refused`); the other files are for the
//! crate itself. It doesn't promise that memory is to be had.
#![tactic(auto)]

mod access;
mod arrays;
mod arriving;
mod calls;
mod caught;
mod declared_types;
mod exchange;
mod expansion;
mod frame_changes;
mod frame_table;
mod handled;
mod laid;
mod law;
mod leaving;
mod locals;
mod lost;
mod made;
mod member;
mod names;
mod operands;
mod pass;
mod rules;
mod shuffled;
mod stack_words;
mod stacked;
mod start_types;
mod type_frame;
mod typing;
mod verification_type;
mod verifying;
mod within;

pub use law::{small_branches, small_constructors, small_handlers, small_operands};
pub use type_frame::TypeFrame;
pub use typing::Typing;
pub use verification_type::VerificationType;
pub use verifying::{VerifyFault, verify};
