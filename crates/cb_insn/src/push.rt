// The writer of operands, which stand at the end of the bytes so far.
ghost use Rattle.std.specs.Prelude.{◌≡◌, [], ◌∷◌, ◌++◌, ◌<◌, ◌^◌, ℕ, pos, ◌+ℤ◌, ◌-ℤ◌, List, length, OnOk, FitsSigned, replicate};
ghost use Rattle.std.specs.Int.{w32};
ghost use Rattle.std.specs.List.{AllByRecursion, flat_map};
ghost use Rattle.cb_insn.specs.Faults.{padding_length};
ghost use Rattle.cb_insn.specs.Grammar.{SpellsOperand, u2, s2, s4, offset, table_bytes, lookup_bytes};
ghost use Rattle.cb_insn.specs.Writing.{operand_bytes};
ghost use Rattle.cb_insn.specs.declared.insn.Operand.TheVariants as operands;

use crate::form::Form;
use crate::offset::offset;
use crate::switch::{high_bound, padding_length};
use crate::{Operand, OutOfMemory, Pair};

/// Writes an operand, which has the form. A refused growth may leave a part of it there.
pub(crate) fn push_operand(
    bytes: &mut Vec<u8>,
    pc: u32,
    form: Form,
    operand: &Operand,
) -> Result<(), OutOfMemory>
    requires { (spelled : List ℕ) × SpellsOperand pc form operand.now spelled }
    ensures { OnOk result (bytes.new.items ≡ bytes.old.items ++ operand_bytes pc form operand.now) }
{
    match operand {
        Operand::Nothing => Ok(()),
        Operand::Number(number) => push_number(bytes, form, *number),
        Operand::Pool(index) => push_pool(bytes, form, *index),
        Operand::Local(local) => push_local(bytes, form, *local),
        Operand::Increase { local, by } => push_increase(bytes, form, *local, *by),
        Operand::Branch(target) => push_branch(bytes, pc, form, *target),
        Operand::ArrayCode(code) => push_u1(bytes, *code),
        Operand::Dimensions { pool, dimensions } => push_dimensions(bytes, *pool, *dimensions),
        Operand::Interface { pool, count } => push_interface(bytes, *pool, *count),
        Operand::Table {
            default,
            low,
            targets,
        } => push_table(bytes, pc, *default, *low, targets.as_slice()),
        Operand::Lookup { default, pairs } => push_lookup(bytes, pc, *default, pairs.as_slice()),
    }
}

/// Writes a number with a sign, in one byte or in two.
fn push_number(bytes: &mut Vec<u8>, form: Form, number: i16) -> Result<(), OutOfMemory>
    requires { (spelled : List ℕ) × SpellsOperand 0 form (operands.Number number) spelled }
    ensures { OnOk result (bytes.new.items ≡ bytes.old.items ++ operand_bytes 0 form (operands.Number number)) }
{
    if form == Form::Byte {
        push_u1(bytes, (number as i8).cast_unsigned())
    } else {
        push_u2(bytes, number.cast_unsigned())
    }
}

/// Writes an index of the pool in one byte or in two, which two zeros follow in a dynamic call.
fn push_pool(bytes: &mut Vec<u8>, form: Form, index: u16) -> Result<(), OutOfMemory>
    requires { (spelled : List ℕ) × SpellsOperand 0 form (operands.Pool index) spelled }
    ensures { OnOk result (bytes.new.items ≡ bytes.old.items ++ operand_bytes 0 form (operands.Pool index)) }
{
    match form {
        Form::PoolByte => push_u1(bytes, index as u8),
        Form::Dynamic => {
            push_u2(bytes, index)?;
            push_u2(bytes, 0)
        }
        _ => push_u2(bytes, index),
    }
}

/// Writes a local, in one byte or in two.
fn push_local(bytes: &mut Vec<u8>, form: Form, local: u16) -> Result<(), OutOfMemory>
    requires { (spelled : List ℕ) × SpellsOperand 0 form (operands.Local local) spelled }
    ensures { OnOk result (bytes.new.items ≡ bytes.old.items ++ operand_bytes 0 form (operands.Local local)) }
{
    if form == Form::Local {
        push_u1(bytes, local as u8)
    } else {
        push_u2(bytes, local)
    }
}

/// Writes a local and a number with a sign, in one byte each or in two.
fn push_increase(bytes: &mut Vec<u8>, form: Form, local: u16, by: i16) -> Result<(), OutOfMemory>
    requires { (spelled : List ℕ) × SpellsOperand 0 form (operands.Increase local by) spelled }
    ensures { OnOk result (bytes.new.items ≡ bytes.old.items ++ operand_bytes 0 form (operands.Increase local by)) }
{
    if form == Form::Increase {
        push_u1(bytes, local as u8)?;
        push_u1(bytes, (by as i8).cast_unsigned())
    } else {
        push_u2(bytes, local)?;
        push_u2(bytes, by.cast_unsigned())
    }
}

/// Writes the offset to a target, in two bytes or in four.
fn push_branch(bytes: &mut Vec<u8>, pc: u32, form: Form, target: u32) -> Result<(), OutOfMemory>
    requires { (spelled : List ℕ) × SpellsOperand pc form (operands.Branch target) spelled }
    ensures { OnOk result (bytes.new.items ≡ bytes.old.items ++ operand_bytes pc form (operands.Branch target)) }
{
    if form == Form::Branch {
        push_u2(bytes, (offset(pc, target) as i16).cast_unsigned())
    } else {
        push_offset(bytes, pc, target)
    }
}

/// Writes an index of the pool and a number of dimensions.
fn push_dimensions(bytes: &mut Vec<u8>, pool: u16, dimensions: u8) -> Result<(), OutOfMemory>
    ensures { OnOk result (bytes.new.items ≡ bytes.old.items ++ u2 pool ++ dimensions ∷ []) }
{
    push_u2(bytes, pool)?;
    push_u1(bytes, dimensions)
}

/// Writes an index of the pool, a count and a zero.
fn push_interface(bytes: &mut Vec<u8>, pool: u16, count: u8) -> Result<(), OutOfMemory>
    ensures { OnOk result (bytes.new.items ≡ bytes.old.items ++ u2 pool ++ count ∷ 0 ∷ []) }
{
    push_u2(bytes, pool)?;
    push_u1(bytes, count)?;
    push_u1(bytes, 0)
}

/// Writes a table and the padding before it.
fn push_table(
    bytes: &mut Vec<u8>,
    pc: u32,
    default: u32,
    low: i32,
    targets: &[u32],
) -> Result<(), OutOfMemory>
    requires default { FitsSigned w32 (offset pc default) }
    requires high { FitsSigned w32 ((low +ℤ pos (length targets.now)) -ℤ pos 1) }
    requires targets { AllByRecursion (λ target. FitsSigned w32 (offset pc target)) targets.now }
    ensures { OnOk result (bytes.new.items
        ≡ bytes.old.items ++ replicate (padding_length pc) 0 ++ table_bytes pc default low targets.now) }
{
    push_padding(bytes, pc)?;
    push_offset(bytes, pc, default)?;
    push_bounds(bytes, low, targets.len())?;
    push_targets(bytes, pc, targets)
}

/// Writes a lookup and the padding before it.
fn push_lookup(
    bytes: &mut Vec<u8>,
    pc: u32,
    default: u32,
    pairs: &[Pair],
) -> Result<(), OutOfMemory>
    requires default { FitsSigned w32 (offset pc default) }
    requires few { length pairs.now < 2 ^ 31 }
    requires targets { AllByRecursion (λ pair. FitsSigned w32 (offset pc pair.target)) pairs.now }
    ensures { OnOk result (bytes.new.items
        ≡ bytes.old.items ++ replicate (padding_length pc) 0 ++ lookup_bytes pc default pairs.now) }
{
    push_padding(bytes, pc)?;
    push_offset(bytes, pc, default)?;
    push_s4(bytes, pairs.len() as i32)?;
    push_pairs(bytes, pc, pairs)
}

/// Writes the padding of a switch at a place.
fn push_padding(bytes: &mut Vec<u8>, pc: u32) -> Result<(), OutOfMemory>
    ensures { OnOk result (bytes.new.items ≡ bytes.old.items ++ replicate (padding_length pc) 0) }
{
    bytes.resize(bytes.len() + padding_length(pc as usize), 0)
}

/// Writes the bounds of a table with so many targets.
fn push_bounds(bytes: &mut Vec<u8>, low: i32, count: usize) -> Result<(), OutOfMemory>
    requires { FitsSigned w32 ((low +ℤ pos count) -ℤ pos 1) }
    ensures { OnOk result (bytes.new.items ≡ bytes.old.items ++ s4 low ++ s4 ((low +ℤ pos count) -ℤ pos 1)) }
{
    push_s4(bytes, low)?;
    push_s4(bytes, high_bound(low, count) as i32)
}

/// Writes the offsets of a table.
fn push_targets(bytes: &mut Vec<u8>, pc: u32, targets: &[u32]) -> Result<(), OutOfMemory>
    requires { AllByRecursion (λ target. FitsSigned w32 (offset pc target)) targets.now }
    ensures { OnOk result (bytes.new.items
        ≡ bytes.old.items ++ flat_map (λ target. s4 (offset pc target)) targets.now) }
{
    for target in targets {
        push_offset(bytes, pc, *target)?;
    }
    Ok(())
}

/// Writes the pairs of a lookup.
fn push_pairs(bytes: &mut Vec<u8>, pc: u32, pairs: &[Pair]) -> Result<(), OutOfMemory>
    requires { AllByRecursion (λ pair. FitsSigned w32 (offset pc pair.target)) pairs.now }
    ensures { OnOk result (bytes.new.items
        ≡ bytes.old.items ++ flat_map (λ pair. s4 pair.key ++ s4 (offset pc pair.target)) pairs.now) }
{
    for pair in pairs {
        push_pair(bytes, pc, *pair)?;
    }
    Ok(())
}

/// Writes a key and an offset.
fn push_pair(bytes: &mut Vec<u8>, pc: u32, pair: Pair) -> Result<(), OutOfMemory>
    requires { FitsSigned w32 (offset pc pair.target) }
    ensures { OnOk result (bytes.new.items ≡ bytes.old.items ++ (s4 pair.key ++ s4 (offset pc pair.target))) }
{
    push_s4(bytes, pair.key)?;
    push_offset(bytes, pc, pair.target)
}

/// Writes an offset of four bytes.
fn push_offset(bytes: &mut Vec<u8>, pc: u32, target: u32) -> Result<(), OutOfMemory>
    requires { FitsSigned w32 (offset pc target) }
    ensures { OnOk result (bytes.new.items ≡ bytes.old.items ++ s4 (offset pc target)) }
{
    push_s4(bytes, offset(pc, target) as i32)
}

/// Writes a number of one byte.
fn push_u1(bytes: &mut Vec<u8>, number: u8) -> Result<(), OutOfMemory>
    ensures { OnOk result (bytes.new.items ≡ bytes.old.items ++ number ∷ []) }
{
    bytes.push(number)?;
    Ok(())
}

/// Writes a number of two bytes.
fn push_u2(bytes: &mut Vec<u8>, number: u16) -> Result<(), OutOfMemory>
    ensures { OnOk result (bytes.new.items ≡ bytes.old.items ++ u2 number) }
{
    bytes.extend_from_slice(&number.to_be_bytes())
}

/// Writes a number of four bytes with a sign.
fn push_s4(bytes: &mut Vec<u8>, number: i32) -> Result<(), OutOfMemory>
    ensures { OnOk result (bytes.new.items ≡ bytes.old.items ++ s4 number) }
{
    bytes.extend_from_slice(&number.to_be_bytes())
}
