//! Class records listed as texts of the assembly format.
//!
//! It promises exactly the listing of a record. `specs/` has frames in full (`Expansion`) and the program that is read off a record (`Listing`). It
//! doesn't promise that memory is to be had: that no call always gives up is shown by tests alone.
#![tactic(auto)]

mod body;
mod code;
mod constant;
mod expansion;
mod frame_line;
mod frame_types;
mod labels;
mod listing;
mod member;
mod names;
mod operand;
mod places;
mod start;
mod words;

pub use listing::list;
