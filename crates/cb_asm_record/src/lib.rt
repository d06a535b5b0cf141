//! The class record of a program of the assembly format.
//!
//! It promises exactly the record that the definitions say, or none. `specs/` has the constants that a program uses and their indices (`Uses`,
//! `Constants`), the places of its labels (`Labels`), and its record (`Record`). It doesn't promise that memory is to be had: that no call always
//! gives up is shown by tests alone.
#![tactic(auto)]

mod body;
mod code;
mod constants;
mod frame;
mod handler;
mod key;
mod labels;
mod law;
mod making;
mod member;
mod numbering;
mod operand;
mod size;
mod stop;
mod uses;
mod words;

pub use law::constants_named;
pub use making::record;
