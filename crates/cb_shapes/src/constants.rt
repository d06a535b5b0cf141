// Instructions that load constants.
ghost use Rattle.std.specs.Prelude.{◌≡◌};
ghost use Rattle.cb_shapes.specs.Constants.{by_operand, constant};

use crate::{Action, Computation};
use cb_insn::{Operand, opcode};

/// What an instruction that loads a constant does (JVMS §6.5, nop to ldc2_w).
pub(crate) fn constant(code: u8, operand: &Operand) -> Option<Action>
    ensures { result ≡ constant code operand.now }
{
    if code == opcode::NOP {
        Some(Action::Compute(Computation::Nothing))
    } else if code == opcode::ACONST_NULL {
        Some(Action::Null)
    } else if code <= opcode::ICONST_5 {
        let number = i32::from(code) - i32::from(opcode::ICONST_0);
        Some(Action::Compute(Computation::IntConstant(number)))
    } else if code <= opcode::LCONST_1 {
        let number = i64::from(code) - i64::from(opcode::LCONST_0);
        Some(Action::Compute(Computation::LongConstant(number)))
    } else if code >= opcode::BIPUSH {
        by_operand(operand)
    } else {
        None
    }
}

/// What one does whose constant stands behind the opcode.
fn by_operand(operand: &Operand) -> Option<Action>
    ensures { result ≡ by_operand operand.now }
{
    match operand {
        Operand::Number(number) => Some(Action::Compute(Computation::IntConstant(i32::from(
            *number,
        )))),
        Operand::Pool(index) => Some(Action::Constant(*index)),
        _ => None,
    }
}
