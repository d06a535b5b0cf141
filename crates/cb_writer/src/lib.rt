//! Class files written back (JVMS chapter 4).
//!
//! It promises the bytes that spell a record and have nothing to skip, that the readers give the record back, and whether a record has any bytes
//! at all. The definitions are the grammar of `cb_classfile` and the functions beside it (`class_bytes` and its like).
//!
//! It doesn't promise that memory is to be had: that `write_class` doesn't always give up is shown by tests alone.
#![tactic(auto)]

mod attribute_names;
mod block;
mod body;
mod body_form;
mod class;
mod entry;
mod field;
mod frame;
mod frame_parts;
mod handler;
mod interface;
mod map_type;
mod method;
mod numbers;
mod size;

pub use class::{well_formed, well_formed_by_numbers, write_class};
