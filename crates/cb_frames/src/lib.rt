//! The roots of a machine that runs: frames with their local variables and stacks, static fields, tables of objects that there are once, and how far
//! each class is initialised.
//!
//! It promises that each call does to the record of the machine's roots what its definition says, with places in place of serials, that frames are
//! refused exactly if the definition of depth has no room, and that walking over all entries finds exactly the roots. `specs/` says what each
//! call does (`Tops`, and `Roots` of `cb_plain`), how the roots are counted through (`Entries`), and what they are at first (`Beginning`).
//!
//! It doesn't promise that memory is to be had: that `make` doesn't always give up is shown by tests alone. Nor does a clause say that no other
//! call takes memory.
#![tactic(auto)]

mod arguments;
mod calls;
mod deep;
mod fields;
mod frame;
mod frame_changes;
mod frame_references;
mod frame_stack;
mod law;
mod object_tables;
mod operands;
mod references;
mod roots;
mod sizes;
mod slot;
mod slot_list;
mod slots;
mod standing;

pub use deep::Deep;
pub use frame::Frame;
pub use law::entries_are_roots;
pub use roots::Roots;
pub use sizes::RootSizes;
