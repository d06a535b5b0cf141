//! The meaning of programs: what a linked and typed program does, on a machine that never frees an object. There is no code but the answer of how a
//! run ends.
//!
//! It is definitions alone, and promises what the check computes of small programs (`Laid`, `Small`). The files of `specs/` are to be read in this
//! order: in `cb_plain` the state, what can be reached, states with one thing changed, how deep frames go and how room is asked for (`State`,
//! `Reach`, `Roots`, `Updates`, `Depth`, `Requests`); machines, numbers of classes and sites (`Machine`, `Library`, `Sites`); what a step places
//! and leaves (`Plans`); values, and where a machine stands at an instruction (`Values`, `Standing`); exceptions, strings, the entry of methods,
//! initialisation and handlers (`Throwing`, `Strings`, `Entering`, `Initialising`, `Unwinding`); the shapes of instructions (`Computing`,
//! `Locals`, `Branching`, `Arrays`, `Fields`, `Creating`, `Testing`); the natives (`Performing`, `Texts`, `Builders`, `Boxes`, `Copying`,
//! `Outside`, `Answering`, `Enums`, `Natives`); calls (`Calling`); the step, the start and runs (`Steps`, `Starting`, `Runs`).
#![tactic(auto)]

mod law;
mod outcome;

pub use law::{numbers_as_said, small_failures, small_requests, small_runs, small_switches};
pub use outcome::Outcome;
