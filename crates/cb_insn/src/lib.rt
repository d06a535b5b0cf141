//! The code array of a method (JVMS §4.7.3, §4.9.1, chapter 6).
//!
//! It promises that code is read exactly by its grammar, that the first fault of other bytes is told at its place, and that what is written is
//! read back as the same code. `specs/` has the form of each opcode's operand (`Forms`), the bytes of instructions and of code (`Grammar`,
//! `Writing`), and what is wrong with bytes that spell none (`Faults`); `Inner` is for the crate itself.
//!
//! It doesn't promise that memory is to be had: that no call always gives up is shown by tests alone. Nor does a clause speak of room: contracts
//! see a list with it as one without.
#![tactic(auto)]

mod decoder;
mod encoder;
mod fault;
mod fit;
mod form;
mod form_table;
mod insn;
mod instruction;
mod law;
mod length;
mod list;
mod memory;
mod numbers;
mod offset;
/// The opcodes, by the names of their instructions (JVMS chapters 6 and 7).
pub mod opcode;
mod operand;
mod place;
mod push;
mod reading;
mod size;
mod starts;
mod switch;
mod target;

pub use decoder::decode;
pub use encoder::{encode, encode_into};
pub use fault::InsnFault;
pub use fit::{code_size, fits};
pub use form::{Form, head_form};
pub use insn::{Code, Insn, Operand, Pair, Pairs, Targets};
pub use law::{code_or_fault, one_code};
pub use list::List;
pub use memory::OutOfMemory;
pub use place::is_place;
pub use size::insn_size;
