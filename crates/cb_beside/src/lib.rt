//! What a step of the machine has to do with the outside: it looks neither at the bytes that were printed before nor, unless it reads, at the
//! input. So a state beside another input and other printed bytes goes on as the state does, and a step that is proved at the one is a step at the
//! other.
//!
//! It is laws alone. `Beside` says what such a state and its plan are, `Asking` which step reads, and `Laws` what steps keep: `prints_behind` holds
//! of each step, `leaves_unread` of those that don't read, and `reads_a_front` of those that do. `takes_or_leaves` says it without `Asking`: a step
//! takes a byte where it is given one, or looks at none. What room a step asks for is seen of neither (`requests_alike`), also where it reads.
#![tactic(auto)]

mod law;

pub use law::{
    ends_alike, leaves_unread, prints_behind, reads_a_front, requests_alike, takes_or_leaves,
};
