//! Graphs as grids of marks (`Grid`), condensed to their parts, which are their strongly connected components (`condense`, by two searches, Kosaraju;
//! Sharir 1981), and the graph of these (`Dag`), with the edges at each part. `specs/` has the paths along edges and parts (`Graphs`, `Parts`), and of sets of
//! parts which are closed, what they gain and which is the best (`Closed`: Picard 1976), with flows from a source to a sink and how one shows that no closed
//! set gains more (`Flows`: Ford and Fulkerson 1956). That it does is proved here once (`certificates_show`, `reached_parts_are_best`).
//!
//! No clause says that memory is to be had: that `Grid::make`, `condense` and `edges_by_end` don't always give up is shown by tests alone.
#![tactic(auto)]

mod bits;
mod certificates;
mod condensing;
mod dag;
mod edges;
mod ends;
mod fault;
mod gains;
mod grid;
mod numbers;
mod roots;
mod search;
mod stack;

pub use certificates::{all_and_none_are_closed, certificates_show, reached_parts_are_best};
pub use condensing::condense;
pub use dag::Dag;
pub use ends::{End, edges_by_end};
pub use fault::{DagFault, MOST_EDGES, MOST_PARTS};
pub use gains::{gain_of, negative_part, positive_part};
pub use grid::Grid;
