//! One region of raw memory in words of 64 bits, under a heap.
//!
//! No clause says that memory is to be had: that `Region::make` doesn't always give up is shown by tests alone.
#![tactic(auto)]

mod region;

pub use region::Region;
