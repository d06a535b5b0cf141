//! Class files: the records that the bytes of whole class files spell (JVMS chapter 4).
//!
//! It promises that a class is read exactly if the bytes spell one, with the reason otherwise; that bytes spell at most one class; each rule beyond
//! the tables as a question answered in both directions; and the first item, if any, that this machine leaves out. `specs/` has the grammar, a
//! file for each table of the standard (`Class`, `Members`, `Code`, `FrameMap`, `Attributes`, `Pool`), and the profile (`Profile`).
//!
//! It doesn't promise that memory is to be had: that no call always gives up is shown by tests alone.
#![tactic(auto)]

pub mod array_code;
mod ascii;
mod attribute;
mod body;
mod class;
mod class_rules;
mod constants;
mod differ;
mod fault;
mod feature;
mod field;
mod flags;
mod frame_form;
mod frame_map;
mod handler;
mod interface;
mod law;
mod map_type;
mod member;
mod method;
mod naming;
mod needed;
mod numbers;
mod profile;
mod read;
mod table;
mod text_numbers;
mod texts;

pub use body::Body;
pub use class::{ClassFile, Classes};
pub use class_rules::{is_class, is_class_by_numbers};
pub use constants::Constants;
pub use differ::{Named, do_differ};
pub use fault::{ClassFault, ReadFault};
pub use feature::Feature;
pub use field::{Field, Fields, is_value_of};
pub use flags::{ClassFlags, FieldFlags, MethodFlags};
pub use frame_form::{FrameForm, form_of_frame};
pub use frame_map::{Frames, MapFrame};
pub use handler::{Handler, Handlers, are_placed};
pub use law::{canonical_bytes, least_name, one_class};
pub use map_type::{MapType, MapTypes};
pub use method::{Method, Methods, is_method};
pub use needed::{ConstantKind, call_classes, have_constants, index_in, kind_needed};
pub use profile::{unsupported, unsupported_in};
pub use read::{read_any_class, read_class};
pub use texts::{TextFacts, facts_of};

// What a record is made of: its constant pool, and the instructions of its methods.
pub use cb_insn::{Code, Insn, Operand, Pair, Pairs, Targets, is_place, opcode};
pub use cb_text::{Constant, Member, MemberKind, NameAndType, Pool, Units};
