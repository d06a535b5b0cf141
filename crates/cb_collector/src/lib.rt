//! A store of fixed size that collects: `Collector`, over a heap in parts, marking and sliding.
//!
//! It promises the trait `Store`, and beyond it when it collects, which parts, and when there is no room: what it knows besides its objects (`Known` in `specs/`), what a
//! collection leaves and what is known then (`Collecting`), and when it collects (`Policy`). These say more than this store does: where there is no room the
//! best set of parts is taken first, by an estimate of what survives. It reckons that all survives, so that the best set never has a part, and goes on to all
//! parts. `Held` has what contracts see of it.
//!
//! All memory is taken by `make`. No clause says that it is to be had there: that `make` doesn't always give up is shown by tests alone.
#![tactic(auto)]

mod collector;
mod heaps;
mod law;
mod learn;
mod making;
mod room;
mod store;
mod sweep;
mod tally;

pub use collector::Collector;
pub use law::{an_example, none_is_best};
pub use tally::Tally;
