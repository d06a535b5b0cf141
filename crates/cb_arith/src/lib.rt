//! The arithmetic of the Java Virtual Machine on ints and longs (JVMS §2.11.3, §2.11.4).
//!
//! It promises that each operation gives exactly its definition's result: a value over whole numbers, and what is left of that in 32 or 64
//! bits, in two's complement; none exactly if zero would divide. `ineg` and `lneg` are a difference from 0. The definitions are in `specs/`
//! (`Ints`, `Longs`, `Shifts`, `Narrowing`, `Order`), and `Laws` says once more what they come to. Nothing here takes memory.
#![tactic(auto)]

mod int;
mod law;
mod long;
mod narrower;
mod narrowing;
mod order;
mod shift;
mod worked;

pub use int::{IntOp, int_op};
pub use law::{bits_as_said, divided_as_said, results_fit, shifted_as_said, wrapped_as_said};
pub use long::{LongOp, long_op};
pub use narrower::Narrow;
pub use narrowing::narrow;
pub use order::compare;
pub use shift::{ShiftOp, long_shift};
pub use worked::{narrower_and_compared, overflows, quotients, shifts_and_bits};
