// The shapes of instructions.
ghost use Rattle.std.specs.Prelude.{◌≡◌};
ghost use Rattle.cb_shapes.specs.Shapes.{action_of, done_by};

use crate::Action;
use crate::constants::constant;
use crate::control::{condition_of, leaving};
use crate::math::{conversion, math};
use crate::moves::{load, load_element, shuffle_of, store, store_element};
use crate::references::reference;
use cb_insn::{Insn, Operand, opcode};

/// What an instruction does, or `None` where the profile leaves it out: with a float or a double, a monitor, a subroutine or
/// `invokedynamic` (JVMS chapters 6 and 7).
pub fn action_of(insn: &Insn) -> Option<Action>
    ensures { result ≡ action_of insn.now }
{
    done_by(insn.opcode, &insn.operand)
}

/// What an instruction does by its opcode and its operand.
fn done_by(code: u8, operand: &Operand) -> Option<Action>
    ensures { result ≡ done_by code operand.now }
{
    match code {
        ..opcode::ILOAD => constant(code, operand),
        ..opcode::IALOAD => load(code, operand),
        ..opcode::ISTORE => load_element(code),
        ..opcode::IASTORE => store(code, operand),
        ..opcode::POP => store_element(code),
        ..opcode::IADD => Some(Action::Shuffle(shuffle_of(code)?)),
        ..opcode::I2L => math(code, operand),
        ..opcode::IFEQ => Some(Action::Compute(conversion(code)?)),
        ..opcode::TABLESWITCH => Some(Action::Branch(condition_of(code)?)),
        ..opcode::GETSTATIC => leaving(code),
        ..opcode::IFNULL => reference(code, operand),
        _ => Some(Action::Branch(condition_of(code)?)),
    }
}
