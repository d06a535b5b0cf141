//! Kinds of objects by name and number, and the types in descriptors (JVMS §4.3, §4.4.1).
//!
//! It promises that texts are kept once and found by number, the kinds that a name or a type has, and what values of a type are. Texts, and pairs of
//! a name and a descriptor, are numbered too where the first of equal ones counts. The definitions are in `specs/` (`Kinds`, `Basics`,
//! `Descriptors`, `Texts`). Names and descriptors are lists of UTF-16 units. It doesn't promise that memory is to be had: that no call always gives
//! up is shown by tests alone.
#![tactic(auto)]

mod basic;
mod descriptor;
mod first_places;
mod kinds;
mod law;
mod pair_numbers;
mod text_numbers;
mod texts;
mod units;

pub use basic::{Basic, basic_of, component_of, kind_number};
pub use descriptor::{Sign, next_sign};
pub use kinds::{array_of, enter_kinds_of_name, enter_kinds_of_type, enter_kinds_of_types};
pub use law::{each_once, types_as_spelled};
pub use pair_numbers::PairNumbers;
pub use text_numbers::TextNumbers;
pub use texts::Texts;
pub use units::class_name;
