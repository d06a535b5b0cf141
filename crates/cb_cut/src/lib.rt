//! A checker of the choice of a set of parts: whether a flow shows that a set is closed and that no closed set gains more (`check`; Picard 1976). It trusts
//! nothing of who made the set and the flow. That the set is the least of the best isn't shown by a flow.
#![tactic(auto)]

mod arcs;
mod balance;
mod checking;
mod edges;
mod fault;
mod sums;

pub use checking::check;
pub use fault::CutFault;
