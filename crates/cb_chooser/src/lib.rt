//! The best set of the parts of a graph, with a flow that shows that no closed set gains more (Picard 1976; Hirzel, Diwan and Hertz 2003). `choose`
//! promises both. The definitions are in `Closed` and `Flows` of `cb_dag`.
//!
//! No clause says that memory is to be had: that `Chooser::make` doesn't always give up is shown by tests alone.
#![tactic(auto)]

mod chooser;

pub use chooser::Chooser;
