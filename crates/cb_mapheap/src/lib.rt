//! A store of objects that never lets one go: its objects lie one behind the other, in the order in which they were placed, and the place of an
//! object is its serial.
//!
//! It promises the trait `Store`, and beyond it when there is no room: exactly if an entry of a request has reached 2^40 words (`Room` in
//! `specs/`; the other files are for what its fields stand for). It doesn't promise that memory is to be had: that `make_room` doesn't always give
//! up is shown by tests alone.
#![tactic(auto)]

mod limits;
mod map_heap;
mod object;

pub use map_heap::MapHeap;
