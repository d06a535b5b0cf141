// Instructions that only move what stands on the operand stack.
/// The instructions that only move what stands on the operand stack (JVMS §6.5, pop to swap).
#[derive(Clone, Copy, Debug, Drop, Eq, PartialEq)]
pub enum Shuffle {
    Pop,
    Pop2,
    Dup,
    DupX1,
    DupX2,
    Dup2,
    Dup2X1,
    Dup2X2,
    Swap,
}
