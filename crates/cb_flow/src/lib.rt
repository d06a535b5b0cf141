//! Greatest flows from a source to a sink by way of the parts of a graph (`Network`; Ford and Fulkerson 1956), and the parts to which more could flow.
//! `solve` promises that what flows is within capacities and balanced, that no flow is greater, and that the parts that it tells are exactly the reached
//! ones. `specs/Networks` has what a network is seen as; what a flow is and which parts are reached is defined in `Flows` of `cb_dag`.
//!
//! No clause says that memory is to be had: that `Network::make` doesn't always give up is shown by tests alone. What a search by way of a single part
//! finds is open too: one that finds nothing, begins elsewhere or is made twice is right as well, since the last search, from all parts, decides.
#![tactic(auto)]

mod graph;
mod moving;
mod network;
mod order;
mod search;
mod visit;

pub use network::Network;
