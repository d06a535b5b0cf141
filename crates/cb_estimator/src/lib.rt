//! Rules that estimate how many words of a part survive a collection, as closures that were handed in with what they answer. `estimate` promises the
//! survivors of the rule's code, which `Estimates` of `cb_plain` defines.
#![tactic(auto)]

mod rule;

pub use rule::{Estimate, Rule};
