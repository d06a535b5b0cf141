//! Plain types that the layers of the machine share: lists as contracts see them, names, values, shapes of objects, requests for room, and want
//! of memory; and for a heap in parts what is known of each part (`Facts`), sets of parts, flows through them, and counters of steps.
//!
//! It promises that each call does to its list, request, set, flow or counter exactly what its definition says. The definitions of the machine
//! begin here, in `specs/`: its state (`State`), roots and states with one thing changed (`Roots`, `Updates`), the frame of a method that is entered
//! (`Depth`), what can be reached (`Reach`), requests (`Requests`), and how many words of a part are estimated to survive a collection
//! (`Estimates`).
//!
//! It doesn't promise that memory is to be had: that `push`, `with_capacity`, `Name::of`, `PlaceTable::of`, `Set::make` and `Flow::make` don't
//! always give up is shown by tests alone. Nor does a clause speak of the room that `with_capacity` takes.
#![tactic(auto)]

mod class_state;
mod facts;
mod flow;
mod list;
mod memory;
mod name;
mod number;
mod place_table;
mod request;
mod set;
mod shape;
mod steps;
mod table;
mod value;
mod want;

pub use class_state::ClassState;
pub use facts::Facts;
pub use flow::Flow;
pub use list::{List, Marks, Numbers, Places};
pub use memory::OutOfMemory;
pub use name::{Name, Names};
pub use number::{number_of, one_more};
pub use place_table::PlaceTable;
pub use request::Request;
pub use set::Set;
pub use shape::{Shape, Shapes};
pub use steps::Steps;
pub use table::Table;
pub use value::Value;
pub use want::Want;
