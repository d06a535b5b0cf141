// Code in lines.
use crate::insn::numbers;
use cb_insn::{Code, Insn, Operand};
use std::alloc::AllocError;

/// Adds the targets of a table, or each pair of a lookup.
fn push_switch(told: &mut String, operand: &Operand) -> Result<(), AllocError> {
    match operand {
        Operand::Table { targets, .. } => writeln!(told, "targets {:?}", targets.as_slice()),
        Operand::Lookup { pairs, .. } => {
            for pair in pairs.as_slice() {
                writeln!(told, "{} to {}", pair.key, pair.target)?;
            }
            Ok(())
        }
        _ => Ok(()),
    }
}

/// Adds a line for an instruction: its place, whether it is wide, its opcode and its operand.
fn push_insn(told: &mut String, pc: u32, insn: &Insn) -> Result<(), AllocError> {
    let wide = if insn.wide { "wide " } else { "" };
    let numbers = numbers(&insn.operand);
    writeln!(told, "{pc} {wide}{:02X} {numbers:?}", insn.opcode)?;
    push_switch(told, &insn.operand)
}

/// Adds code, line by line.
pub(crate) fn push_code(told: &mut String, code: &Code) -> Result<(), AllocError> {
    for (pc, insn) in code.as_slice() {
        push_insn(told, *pc, insn)?;
    }
    Ok(())
}
