//! Points-to analysis by inclusion (Andersen 1994): which sites each node may hold.
//!
//! Constraints are made without Java: nodes and sites are numbers, tables say which node stands for a field of a site's objects and what a call runs
//! for a receiver of a site, and inclusions say what a relation of nodes to sites has to have; `fits`, `fit_slots` and `fit_callees` say whether they
//! name what is there. `solve` gives the least relation of which all of them
//! hold: each inclusion holds of it, and it is within each relation of which they all hold.
//!
//! `specs/` says what an inclusion says of a relation (`Inclusions`), what closed and least is (`Closed`), and when constraints are sound (`Made`).
//! The rest of it is the solver's own: what an inclusion says of one site of each of its bases (`Says`), what holds while the relation grows
//! (`Webs`), and while sites are looked at one by one (`Looking`).
//!
//! It doesn't promise that memory is to be had: that `solve` and the calls of `Constraints` don't always give up is shown by tests alone.
#![tactic(auto)]

mod bits;
mod constraints;
mod expand;
mod fits;
mod inclusion;
mod lists;
mod look;
mod member;
mod pts;
mod solver;
mod tables;
mod watch;
mod web;

pub use constraints::Constraints;
pub use inclusion::Inclusion;
pub use pts::Pts;
pub use solver::solve;
pub use tables::{Callee, Callees, Slot, Slots};
