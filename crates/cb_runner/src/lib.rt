//! The top call of the machine: all that the program does, over the outside that it is handed.
//!
//! `run_command` promises one thing, `IsAnswer` in `specs/Answer`: how a call ends, what it prints and reads, and its cause, for every folder, input,
//! outputs and words. `specs/` has besides the words (`Words`), endings and statuses (`Ending`, `Messages`), and how each command ends (`Run` with
//! `Running`, `List`, `Asm`); `Inner` is for the crate itself. The laws say single facts of the answer.
//!
//! It links, verifies and runs classes, lists class files and assembles texts. A program runs over a store that never lets an object go, until it
//! ends, its steps are spent, memory runs out, the heap is full, or the outside fails.
//!
//! A program, its store and its roots are let go by calls of `drop`: what that takes is then proved once, and not in each function that has them.
#![tactic(auto)]

mod arguments;
mod asm;
mod cause;
mod class_name;
mod command;
mod ended;
mod ending;
mod executing;
mod few;
mod file;
mod input;
mod law;
mod limits;
mod line;
mod linking;
mod list;
mod one_part;
mod option;
mod printing;
mod refusal;
mod run;
mod run_words;
mod shapes;
mod stop;
mod stopped;
mod storing;
mod verifying;
mod words;

pub use cause::Cause;
pub use command::run_command;
pub use ended::Ended;
pub use few::are_few;
pub use law::{
    asm_exactly, list_exactly, never_frees, one_command, refused_silently, run_exactly, told_runs,
    usage_exactly, whole_exactly,
};
pub use refusal::Refusal;
