// How many bytes an instruction is written in, where it fits any.
ghost use Rattle.std.specs.Prelude.{◌≡◌, ◌<◌, ◌^◌, ◌↔◌, ℕ, List, length, FitsSigned, IsTrue, IfSome, IsNone};
ghost use Rattle.std.specs.Int.{w32};
ghost use Rattle.std.specs.List.{AllByRecursion};
ghost use Rattle.cb_insn.specs.Grammar.{SpellsInsn, KeysRise, offset};
ghost use Rattle.cb_insn.specs.Inner.{IsSize, IsUnspelled};
ghost use Rattle.cb_insn.specs.Writing.{insn_bytes};
ghost use Rattle.cb_insn.specs.declared.insn.Operand.TheVariants as operands;

use crate::form::{Form, form_of, wide_form_of};
use crate::offset::{is_close, is_near};
use crate::switch::{high_bound, padding_length};
use crate::{Insn, Operand, Pair};

/// How many bytes spell an instruction at a place, or `None` where none do. Takes time in their number.
pub fn insn_size(pc: u32, insn: &Insn) -> Option<usize>
    ensures fits { IfSome result (λ size. SpellsInsn pc insn.now (insn_bytes pc insn.now)
        × (size ≡ length (insn_bytes pc insn.now))) }
    ensures bound { IfSome result (λ size. (0 < size) × (size < 2 ^ 41)) }
    ensures none { IsNone result → (bytes : List ℕ) → SpellsInsn pc insn.now bytes → ⊥ }
{
    if insn.wide {
        Some(2 + operand_size(pc, wide_form_of(insn.opcode)?, &insn.operand)?)
    } else {
        Some(1 + operand_size(pc, form_of(insn.opcode)?, &insn.operand)?)
    }
}

/// How many bytes spell an operand in a form, or `None` where none do.
fn operand_size(pc: u32, form: Form, operand: &Operand) -> Option<usize>
    ensures fits { IfSome result (IsSize pc form operand.now) }
    ensures bound { IfSome result (λ size. size < 2 ^ 40) }
    ensures none { IsNone result → IsUnspelled pc form operand.now }
{
    match operand {
        Operand::Nothing => (form == Form::Plain).then_some(0),
        Operand::Number(number) => number_size(form, *number),
        Operand::Pool(index) => pool_size(form, *index),
        Operand::Local(local) => local_size(form, *local),
        Operand::Increase { local, by } => increase_size(form, *local, *by),
        Operand::Branch(target) => branch_size(pc, form, *target),
        Operand::ArrayCode(code) => {
            (form == Form::ArrayCode && matches!(*code, 4..=11)).then_some(1)
        }
        Operand::Dimensions { pool, dimensions } => dimensions_size(form, *pool, *dimensions),
        Operand::Interface { pool, count } => interface_size(form, *pool, *count),
        Operand::Table {
            default,
            low,
            targets,
        } => table_size(pc, form, *default, *low, targets.as_slice()),
        Operand::Lookup { default, pairs } => lookup_size(pc, form, *default, pairs.as_slice()),
    }
}

/// How many bytes spell a number.
fn number_size(form: Form, number: i16) -> Option<usize>
    ensures fits { IfSome result (IsSize 0 form (operands.Number number)) }
    ensures none { IsNone result → IsUnspelled 0 form (operands.Number number) }
{
    match form {
        Form::Byte => i8::try_from(number).is_ok().then_some(1),
        Form::Short => Some(2),
        _ => None,
    }
}

/// How many bytes spell an index of the pool.
fn pool_size(form: Form, index: u16) -> Option<usize>
    ensures fits { IfSome result (IsSize 0 form (operands.Pool index)) }
    ensures none { IsNone result → IsUnspelled 0 form (operands.Pool index) }
{
    match form {
        Form::PoolByte => u8::try_from(index).is_ok().then_some(1),
        Form::Pool => Some(2),
        Form::Dynamic => Some(4),
        _ => None,
    }
}

/// How many bytes spell a local.
fn local_size(form: Form, local: u16) -> Option<usize>
    ensures fits { IfSome result (IsSize 0 form (operands.Local local)) }
    ensures none { IsNone result → IsUnspelled 0 form (operands.Local local) }
{
    match form {
        Form::Local => u8::try_from(local).is_ok().then_some(1),
        Form::WideLocal => Some(2),
        _ => None,
    }
}

/// How many bytes spell a local and what it is increased by.
fn increase_size(form: Form, local: u16, by: i16) -> Option<usize>
    ensures fits { IfSome result (IsSize 0 form (operands.Increase local by)) }
    ensures none { IsNone result → IsUnspelled 0 form (operands.Increase local by) }
{
    match form {
        Form::Increase => (u8::try_from(local).is_ok() && i8::try_from(by).is_ok()).then_some(2),
        Form::WideIncrease => Some(4),
        _ => None,
    }
}

/// How many bytes spell the offset to a target.
fn branch_size(pc: u32, form: Form, target: u32) -> Option<usize>
    ensures fits { IfSome result (IsSize pc form (operands.Branch target)) }
    ensures none { IsNone result → IsUnspelled pc form (operands.Branch target) }
{
    match form {
        Form::Branch => is_close(pc, target).then_some(2),
        Form::LongBranch => is_near(pc, target).then_some(4),
        _ => None,
    }
}

/// How many bytes spell an index of the pool and a number of dimensions.
fn dimensions_size(form: Form, pool: u16, dimensions: u8) -> Option<usize>
    ensures fits { IfSome result (IsSize 0 form (operands.Dimensions pool dimensions)) }
    ensures none { IsNone result → IsUnspelled 0 form (operands.Dimensions pool dimensions) }
{
    match form {
        Form::Dimensions => (dimensions > 0).then_some(3),
        _ => None,
    }
}

/// How many bytes spell an index of the pool and a count.
fn interface_size(form: Form, pool: u16, count: u8) -> Option<usize>
    ensures fits { IfSome result (IsSize 0 form (operands.Interface pool count)) }
    ensures none { IsNone result → IsUnspelled 0 form (operands.Interface pool count) }
{
    match form {
        Form::Interface => (count > 0).then_some(4),
        _ => None,
    }
}

/// How many bytes spell a table. Takes time in the number of targets.
fn table_size(pc: u32, form: Form, default: u32, low: i32, targets: &[u32]) -> Option<usize>
    ensures fits { IfSome result (IsSize pc form (operands.Table default low targets.now)) }
    ensures bound { IfSome result (λ size. size < 2 ^ 40) }
    ensures none { IsNone result → IsUnspelled pc form (operands.Table default low targets.now) }
{
    if form != Form::Table || targets.is_empty() || targets.len() > 0x1_0000_0000 {
        return None;
    }
    if high_bound(low, targets.len()) > i64::from(i32::MAX) {
        return None;
    }
    if !is_near(pc, default) || !are_near(pc, targets) {
        return None;
    }
    Some(padding_length(pc as usize) + 12 + 4 * targets.len())
}

/// How many bytes spell a lookup. Takes time in the number of pairs.
fn lookup_size(pc: u32, form: Form, default: u32, pairs: &[Pair]) -> Option<usize>
    ensures fits { IfSome result (IsSize pc form (operands.Lookup default pairs.now)) }
    ensures bound { IfSome result (λ size. size < 2 ^ 40) }
    ensures none { IsNone result → IsUnspelled pc form (operands.Lookup default pairs.now) }
{
    if form != Form::Lookup || pairs.len() >= 0x8000_0000 || !do_keys_rise(pairs) {
        return None;
    }
    if !is_near(pc, default) || !are_pairs_near(pc, pairs) {
        return None;
    }
    Some(padding_length(pc as usize) + 8 + 8 * pairs.len())
}

/// Whether each key is above the one before it. Takes time in their number.
fn do_keys_rise(pairs: &[Pair]) -> bool
    ensures { IsTrue result ↔ KeysRise pairs.now }
{
    let mut rest = pairs;
    while let [one, behind @ ..] = rest {
        if let [next, ..] = behind
            && one.key >= next.key
        {
            return false;
        }
        rest = behind;
    }
    true
}

/// Whether the targets are as near as four bytes tell. Takes time in their number.
fn are_near(pc: u32, targets: &[u32]) -> bool
    ensures { IsTrue result ↔ AllByRecursion (λ target. FitsSigned w32 (offset pc target)) targets.now }
{
    targets.iter().all(|target| is_near(pc, *target))
}

/// Whether the targets of pairs are as near as four bytes tell. Takes time in their number.
fn are_pairs_near(pc: u32, pairs: &[Pair]) -> bool
    ensures { IsTrue result
        ↔ AllByRecursion (λ pair. FitsSigned w32 pair.key × FitsSigned w32 (offset pc pair.target)) pairs.now }
{
    pairs.iter().all(|pair| is_pair_near(pc, *pair))
}

/// Whether the target of a pair is as near. Its key fits four bytes by its type.
fn is_pair_near(pc: u32, pair: Pair) -> bool
    ensures { IsTrue result ↔ (FitsSigned w32 pair.key × FitsSigned w32 (offset pc pair.target)) }
{
    is_near(pc, pair.target)
}
