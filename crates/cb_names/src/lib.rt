//! Names and descriptors of class files, as lists of UTF-16 units (JVMS §4.2, §4.3).
//!
//! It promises, in both directions, which texts are names of classes and members and which are descriptors, and the types that descriptors say.
//! The grammars are in `specs/` (`Names`, `Types`, `Descriptors`). Only `method_type` takes memory. What borrows a text holds the names of
//! classes in it.
#![tactic(auto)]

mod base;
mod class_name;
mod descriptor;
mod floating;
mod front;
mod method;
mod name;
mod parameters;
mod signs;
mod types;
mod unique;
mod unit;

pub use base::BaseType;
pub use descriptor::{class_type, field_type, is_array_descriptor, is_field_descriptor};
pub use floating::{Floating, floating_in, floating_of_parts};
pub use method::{MethodFacts, method_facts, method_type, parameter_words};
pub use name::{NameKinds, is_class_name, is_method_name, is_unqualified_name, name_kinds};
pub use types::{ElementType, FieldType, MethodType};
pub use unique::{one_method_type, one_type};
