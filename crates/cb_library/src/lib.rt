//! The classes of the library that the machine knows, as one table: for each its flags, name, superclass, interfaces, fields and members, and for
//! each member what it is: abstract, native, or a short body.
//!
//! The table is the definition `CoreClasses` in `specs/`, over names and descriptors as text; its natives are those of `Native`. The laws promise
//! what the machine relies on: fifty classes with names of their own behind their parents, each native once, flags that match what a method
//! is, and bodies that name only what is in the table.
#![tactic(auto)]

mod law;
mod native;

pub use law::{
    fifty_classes, flags_of_methods, four_constructors, marked, natives_once, one_method,
    sound_bodies,
};
pub use native::{Native, NativeForm};
