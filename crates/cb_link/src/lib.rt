//! Linking (JVMS chapter 5): the program that classes are, once they are loaded. `cb_load` finds the classes in a folder.
//!
//! It promises that classes are made a program exactly if they are one, and are refused for the first reason otherwise (`Judging` in `specs/`);
//! and that what a running machine asks of a program, its kinds, members, sites, texts and instructions by numbers, is answered from tables as
//! the definitions say (`Program`, `Subtypes`, `Slots`, `Named`, `Calls`, `Special`, `Decoding`; the files `Inner..` are for the crate itself).
//!
//! It doesn't promise that memory is to be had, nor how much the tables take; that no call always gives up is shown by cases of `cb_cases`.
#![tactic(auto)]

mod all_tables;
mod array_names;
mod base;
mod call_answers;
mod call_tables;
mod class_order;
mod constant_answers;
mod constant_named;
mod constant_table;
mod decoded;
mod descriptors;
mod enums;
mod field_answers;
mod field_record;
mod field_tables;
mod fixed;
mod joined;
mod joining;
mod joining_last;
mod joining_loads;
mod joining_others;
mod judging;
mod kind_answers;
mod kind_row;
mod kind_table;
mod kinds;
mod lacked;
mod lacking;
mod law;
mod linked;
mod loaded_texts;
mod making;
mod meanings;
mod members;
mod named;
mod named_kinds;
mod numbering;
mod op_kind;
mod place_answers;
mod place_tables;
mod places;
mod program;
mod ranked;
mod refusal;
mod resolver;
mod resolver_parts;
mod shapes;
mod site_list;
mod sites;
mod slot_law;
mod slots;
mod special;
mod tables;
mod units;

pub use decoded::Decoded;
pub use joined::Joined;
pub use judging::program_of;
pub use law::one_judgement;
pub use linked::{Basics, LinkedField, LinkedFields, LinkedMethod, LinkedMethods, Site, Sites};
pub use named::Named;
pub use program::Program;
pub use refusal::{Quantity, Refusal};
pub use slot_law::slots_in_objects;
pub use units::units_of;
