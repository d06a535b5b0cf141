//! One law: lines that begin a program of the assembly format, closed in one of four shortest ways, are all of one (`Closing` in `specs/`).
#![tactic(auto)]

mod law;

pub use law::fronts_close;
