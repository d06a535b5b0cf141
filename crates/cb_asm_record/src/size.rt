// How many bytes instructions take.
ghost use Rattle.std.specs.Prelude.{◌≡◌, ◌<◌, ◌+◌, ◌*◌, ◌^◌, ℕ, ℤ, IfSome, IsNone, List, [], length};
ghost use Rattle.cb_insn.specs.Faults.{padding_length};
ghost use Rattle.cb_insn.specs.Writing.{operand_bytes};
ghost use Rattle.cb_insn.specs.declared.insn.Operand.TheVariants as operands;
ghost use Rattle.cb_insn.specs.declared.insn.Pair.{Pair};
ghost use Rattle.cb_asm_line.specs.declared.operand.MemberText.{MemberText as AnyMember};
ghost use Rattle.cb_asm_record.specs.Inner.{Makes, behind};
ghost use Rattle.cb_asm_record.specs.Labels.{member_operand, operand_of, size_at};
ghost use Rattle.cb_asm_line.specs.declared.program.CodeLine.TheVariants.{Do};

use crate::stop::Stop;
use cb_asm_line::{Instruction, Operand};
use cb_insn::{Form, head_form, opcode};

/// The place behind an instruction at a place. `NoRecord` where it is past 65535.
pub(crate) fn behind(pc: u16, instruction: &Instruction) -> Result<u16, Stop>
    ensures { Makes (behind pc (Do instruction.now)) (behind pc (Do instruction.now) < 2 ^ 16) result }
{
    let Some(size) = size_at(pc, instruction) else {
        return Err(Stop::NoRecord);
    };
    let end = u32::from(pc) + size;
    if end > 0xFFFF {
        return Err(Stop::NoRecord);
    }
    Ok(end as u16)
}

/// How many bytes an instruction at a place takes, or `None` where it takes more than 65535.
fn size_at(pc: u16, instruction: &Instruction) -> Option<u32>
    ensures size { IfSome result (λ size. (size ≡ size_at pc instruction.now) × (size < 2 ^ 24)) }
    ensures none { IsNone result → ¬ (size_at pc instruction.now < 2 ^ 16) }
{
    let head = if instruction.wide { 2 } else { 1 };
    match head_form(instruction.wide, instruction.opcode) {
        Some(form) => {
            let size = operand_size(pc, form, instruction.opcode, &instruction.operand)?;
            Some(head + size)
        }
        None => Some(head),
    }
}

/// How many bytes an operand takes in a form, which are none where it isn't of that form.
fn operand_size(pc: u16, form: Form, opcode: u8, operand: &Operand) -> Option<u32>
    ensures size { IfSome result (λ size. (size ≡ length (operand_bytes pc form (operand_of [] (λ _. 0) opcode operand.now))) × (size < 2 ^ 20)) }
    ensures none { IsNone result → ¬ (length (operand_bytes pc form (operand_of [] (λ _. 0) opcode operand.now)) < 2 ^ 16) }
{
    match operand {
        Operand::Nothing => Some(0),
        Operand::Number(_) => Some(number_size(form)),
        Operand::Local(_) => Some(local_size(form)),
        Operand::Increase(..) => Some(increase_size(form)),
        Operand::Load(_) | Operand::Class(_) => Some(pool_size(form)),
        Operand::Member(_) => Some(member_size(form, opcode)),
        Operand::Array(_) => Some(if form == Form::ArrayCode { 1 } else { 0 }),
        Operand::Dimensions(..) => Some(if form == Form::Dimensions { 3 } else { 0 }),
        Operand::Branch(_) => Some(branch_size(form)),
        Operand::Table(_, _, labels) => table_size(pc, form, labels.len()),
        Operand::Lookup(_, pairs) => lookup_size(pc, form, pairs.len()),
    }
}

/// How many bytes a number takes.
fn number_size(form: Form) -> u32
    ensures size { (pc : ℕ) (number : ℤ) → result ≡ length (operand_bytes pc form (operands.Number number)) }
    ensures few { result < 3 }
{
    match form {
        Form::Byte => 1,
        Form::Short => 2,
        _ => 0,
    }
}

/// How many bytes a local takes.
fn local_size(form: Form) -> u32
    ensures size { (pc local : ℕ) → result ≡ length (operand_bytes pc form (operands.Local local)) }
    ensures few { result < 3 }
{
    match form {
        Form::Local => 1,
        Form::WideLocal => 2,
        _ => 0,
    }
}

/// How many bytes a local and what it is increased by take.
fn increase_size(form: Form) -> u32
    ensures size { (pc local : ℕ) (by : ℤ) → result ≡ length (operand_bytes pc form (operands.Increase local by)) }
    ensures few { result < 5 }
{
    match form {
        Form::Increase => 2,
        Form::WideIncrease => 4,
        _ => 0,
    }
}

/// How many bytes an index of the pool takes.
fn pool_size(form: Form) -> u32
    ensures size { (pc index : ℕ) → result ≡ length (operand_bytes pc form (operands.Pool index)) }
    ensures few { result < 5 }
{
    match form {
        Form::PoolByte => 1,
        Form::Pool => 2,
        Form::Dynamic => 4,
        _ => 0,
    }
}

/// How many bytes a field or method takes, by its index and, for `invokeinterface`, a count.
fn member_size(form: Form, opcode: u8) -> u32
    ensures size { (pc index : ℕ) (member : AnyMember) → result ≡ length (operand_bytes pc form (member_operand opcode index member)) }
    ensures few { result < 5 }
{
    if opcode != opcode::INVOKEINTERFACE {
        return pool_size(form);
    }
    match form {
        Form::Interface => 4,
        _ => 0,
    }
}

/// How many bytes an offset takes.
fn branch_size(form: Form) -> u32
    ensures size { (pc target : ℕ) → result ≡ length (operand_bytes pc form (operands.Branch target)) }
    ensures few { result < 5 }
{
    match form {
        Form::Branch => 2,
        Form::LongBranch => 4,
        _ => 0,
    }
}

/// How many bytes a table of so many labels takes, or `None` where it takes more than 65535.
fn table_size(pc: u16, form: Form, labels: usize) -> Option<u32>
    ensures size { (default : ℕ) (low : ℤ) (targets : List ℕ) → length targets ≡ labels
        → IfSome result (λ size. (size ≡ length (operand_bytes pc form (operands.Table default low targets))) × (size < 2 ^ 20)) }
    ensures none { (default : ℕ) (low : ℤ) (targets : List ℕ) → length targets ≡ labels
        → IsNone result → ¬ (length (operand_bytes pc form (operands.Table default low targets)) < 2 ^ 16) }
{
    match form {
        Form::Table => switch_size(pc, 12, 4, labels),
        _ => Some(0),
    }
}

/// How many bytes a lookup of so many pairs takes, or `None` where it takes more than 65535.
fn lookup_size(pc: u16, form: Form, labels: usize) -> Option<u32>
    ensures size { (default : ℕ) (pairs : List Pair) → length pairs ≡ labels
        → IfSome result (λ size. (size ≡ length (operand_bytes pc form (operands.Lookup default pairs))) × (size < 2 ^ 20)) }
    ensures none { (default : ℕ) (pairs : List Pair) → length pairs ≡ labels
        → IsNone result → ¬ (length (operand_bytes pc form (operands.Lookup default pairs)) < 2 ^ 16) }
{
    match form {
        Form::Lookup => switch_size(pc, 8, 8, labels),
        _ => Some(0),
    }
}

/// How many bytes a switch takes, by those before its labels and those of each, or `None` where it takes more than 65535.
fn switch_size(pc: u16, before: u32, each: u32, labels: usize) -> Option<u32>
    requires { (0 < each) × (each < 16) × (before < 16) }
    ensures size { IfSome result (λ size. (size ≡ padding_length pc + before + each * labels) × (size < 2 ^ 20)) }
    ensures none { IsNone result → ¬ (padding_length pc + before + each * labels < 2 ^ 16) }
{
    if labels > 0xFFFF {
        return None;
    }
    Some(u32::from(3 - pc % 4) + before + each * labels as u32)
}
