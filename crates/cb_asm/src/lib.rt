//! The assembly format of class files: a text assembled to a class record, and a record listed as a text.
//!
//! It promises the record of a text exactly if it has one, else the number of its first bad line; and that the listing of an assembled record
//! assembles to it again. The lines of the format, the record of a program and the listing of a record are those of `cb_asm_line`,
//! `cb_asm_record` and `cb_asm_list`; `specs/` has the first line that is outside the format (`BadLines`). It doesn't promise that memory is to
//! be had: that no call always gives up is shown by tests alone.
#![tactic(auto)]

mod assembled;
mod assembling;
mod bad_line;
mod closing;
mod fault;
mod gathering;
mod law;
mod listing;
mod open_labels;
mod part;
mod reading;
mod sample;

pub use assembling::{assemble, assemble_bytes};
pub use fault::AsmFault;
pub use law::one_record;
pub use listing::list;
pub use sample::{first_sample, forms_sample, frames_in_full, parameters_sample};
