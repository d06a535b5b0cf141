//! The trial of the trait of stores: code over any store, proved from the trait's clauses alone (`linked`), and so proved for each store that it is
//! run over.
#![tactic(auto)]

mod trial;

pub use trial::linked;
