// Instructions.
ghost use Rattle.std.specs.Prelude.{◌≡◌, IfOk, length};
ghost use Rattle.cb_classfile.specs.Library.{SaysInsn, with_operand};
ghost use Rattle.cb_core.specs.Entered.{HasRoom, Puts};
ghost use Rattle.cb_core.specs.Rowed.{insn_row};
ghost use Rattle.cb_core.specs.Sound.{IsSoundInsn, insn_room};
ghost use Rattle.cb_core.specs.Recorded.{entered, with_insn};

use crate::constants::{enter_class, enter_field, enter_method, enter_string};
use crate::row::Instruction;
use cb_classfile::{Insn, Operand, Pool, opcode};
use cb_plain::{Numbers, OutOfMemory};
use std::alloc::Global;

/// The instruction of a row, in code with these places.
pub(crate) fn insn_of(
    alloc: Global,
    pool: &mut Pool,
    places: &Numbers,
    row: &Instruction,
) -> Result<Insn, OutOfMemory>
    requires room { HasRoom (insn_room (insn_row row.now)) pool.old }
    requires sound { IsSoundInsn (length places.now) (insn_row row.now) }
    ensures put { IfOk result (Puts (insn_room (insn_row row.now))
        (λ pool insn. SaysInsn pool places.now (insn_row row.now) insn) pool.old pool.new) }
    ensures made { IfOk result (λ insn. with_insn places.now (insn_row row.now) pool.old ≡ entered pool.new insn) }
{
    match row {
        Instruction::Plain(opcode) => Ok(with_operand(*opcode, Operand::Nothing)),
        Instruction::Branch(opcode, target) => {
            let place = *places.get(usize::from(*target));
            Ok(with_operand(*opcode, Operand::Branch(place)))
        }
        Instruction::LoadText(text) => {
            let string = enter_string(alloc, pool, text)?;
            Ok(with_operand(opcode::LDC_W, Operand::Pool(string)))
        }
        Instruction::OfClass(opcode, class) => {
            let holder = enter_class(alloc, pool, class)?;
            Ok(with_operand(*opcode, Operand::Pool(holder)))
        }
        Instruction::OfField(opcode, class, name, descriptor) => {
            let field = enter_field(alloc, pool, class, name, descriptor)?;
            Ok(with_operand(*opcode, Operand::Pool(field)))
        }
        Instruction::OfMethod(opcode, class, name, descriptor) => {
            let method = enter_method(alloc, pool, class, name, descriptor)?;
            Ok(with_operand(*opcode, Operand::Pool(method)))
        }
    }
}

/// An instruction with this operand.
fn with_operand(opcode: u8, operand: Operand) -> Insn
    ensures { result ≡ with_operand opcode operand }
{
    Insn {
        opcode,
        wide: false,
        operand,
    }
}
