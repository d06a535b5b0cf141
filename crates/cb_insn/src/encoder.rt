// The writer of code.
ghost use Rattle.std.specs.Prelude.{◌≡◌, ◌++◌, ℕ, List, IfOk, OnOk};
ghost use Rattle.cb_insn.specs.Grammar.{SpellsCode, SpellsInsn};
ghost use Rattle.cb_insn.specs.Writing.{code_bytes, insn_bytes};

use crate::form::{form_of, wide_form_of};
use crate::opcode::WIDE;
use crate::push::push_operand;
use crate::{Code, Insn, OutOfMemory};
use std::alloc::Global;

/// The bytes that spell the code with 0 for padding (JVMS §4.7.3, §4.9.1, chapter 6), which `decode` reads back. `fits`
/// tells whether there are any. `OutOfMemory` where no memory was to be had. Takes time in the number of bytes.
pub fn encode(alloc: Global, code: &Code) -> Result<Vec<u8>, OutOfMemory>
    requires { (bytes : List ℕ) × SpellsCode code.now bytes }
    ensures spelled { IfOk result (λ bytes. SpellsCode code.now bytes.items) }
    ensures read_back { IfOk result (λ bytes. (other : _) → SpellsCode other bytes.items → other ≡ code.now) }
    ensures exact { IfOk result (λ bytes. bytes.items ≡ code_bytes code.now) }
{
    let mut bytes = Vec::new(alloc);
    encode_into(&mut bytes, code)?;
    Ok(bytes)
}

/// Adds the bytes that `encode` gives behind those that are there. `OutOfMemory` where no memory was to be had: a part of
/// them may then stand there. Takes time in the number of bytes.
pub fn encode_into(bytes: &mut Vec<u8>, code: &Code) -> Result<(), OutOfMemory>
    requires { (spelled : List ℕ) × SpellsCode code.now spelled }
    ensures { OnOk result (bytes.new.items ≡ bytes.old.items ++ code_bytes code.now) }
{
    for placed in code.as_slice() {
        push_insn(bytes, placed.0, &placed.1)?;
    }
    Ok(())
}

/// Writes an instruction at the end. A refused growth may leave a part of it there.
fn push_insn(bytes: &mut Vec<u8>, pc: u32, insn: &Insn) -> Result<(), OutOfMemory>
    requires { (spelled : List ℕ) × SpellsInsn pc insn.now spelled }
    ensures { OnOk result (bytes.new.items ≡ bytes.old.items ++ insn_bytes pc insn.now) }
{
    let form = if insn.wide {
        bytes.push(WIDE)?;
        wide_form_of(insn.opcode)
    } else {
        form_of(insn.opcode)
    };
    bytes.push(insn.opcode)?;
    let Some(form) = form else { unreachable!() };
    push_operand(bytes, pc, form, &insn.operand)
}
