//! What a machine does when no instruction runs: a class begins to be initialised, an initialisation takes a step, a pending exception looks for its
//! handler, and a constant string gets its object, over the roots of a running machine and any store of objects.
//!
//! It promises that each call leaves what the machine's step leaves. `specs/` says what that is: of the roots `Begun` and `Initialised`, of roots
//! and objects `Unwound` and `Strings`; and `Steps` what that has to do with the machine's step. A string that is the constant of a static field
//! isn't set by `begin_init`, which asks that there is none. No call takes memory, and each takes constant time unless it says otherwise.
#![tactic(auto)]

mod answers;
mod beginning;
mod catching;
mod ending;
mod handlers;
mod initialising;
mod law;
mod strings;
mod unwinding;
mod values;
mod wrapping;

pub use answers::{InitStep, Unwound};
pub use beginning::begin_init;
pub use catching::catch;
pub use handlers::handler_for;
pub use initialising::init_step;
pub use law::{
    beginning_as_said, beginning_is_read, initialising_as_said, initialising_is_read,
    strings_as_said, unwinding_as_said,
};
pub use strings::constant_string;
pub use unwinding::{unwind_step, wraps};
pub use values::kept_value;
