//! Text and constants of class files: modified UTF-8 and the constant pool (JVMS §4.4).
//!
//! It promises that texts and pools are read exactly by their grammars, that what is written is read back as the same, and what each index of a
//! pool names, in both directions. A pool is read from bytes or made constant by constant. The grammars are in `specs/`: the spelling of a
//! text (`Text`), the bytes of a constant and what a pool is (`Pool`), what an index names (`Naming`).
//!
//! It doesn't promise that memory is to be had: that no call always gives up is shown by tests alone. Nor does a clause speak of the room that
//! `List::with_capacity` takes.
#![tactic(auto)]

mod admitting;
mod constant;
mod constants;
mod contents;
mod indices;
mod list;
mod memory;
mod naming;
mod next_constant;
mod numbers;
mod pool;
mod pool_fault;
mod text;
mod unit;
mod values;
mod writing;

pub use constant::Constant;
pub use list::{List, Units};
pub use memory::OutOfMemory;
pub use naming::{Member, MemberKind, NameAndType};
pub use pool::{Pool, one_pool, read_pool};
pub use pool_fault::PoolFault;
pub use text::{TextFault, decode_modified, encode_modified, one_spelling};
