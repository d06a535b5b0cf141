// How many bytes stand behind an opcode.
ghost use Rattle.std.specs.Prelude.{◌≡◌, ◌^◌, ◌<◌, IfSome, IsNone, None, slice_index_or};
ghost use Rattle.cb_insn.specs.Faults.{operand_length};
ghost use Rattle.cb_insn.specs.Inner.{IsFree, IsBound, number_of};

use crate::form::Form;
use crate::switch::{behind_padding, lookup_length, padding_length, table_length};

/// How many bytes an operand of each form has, in the order of the forms, where any bytes are one.
static LENGTHS: [Option<usize>; 17] = [
    Some(0), // Plain
    Some(1), // Byte
    Some(2), // Short
    Some(1), // PoolByte
    Some(2), // Pool
    Some(1), // Local
    Some(2), // WideLocal
    Some(2), // Increase
    Some(4), // WideIncrease
    Some(2), // Branch
    Some(4), // LongBranch
    None, // Table
    None, // Lookup
    None, // ArrayCode
    None, // Dimensions
    None, // Interface
    None, // Dynamic
];

/// How many bytes stand behind an opcode, as far as these tell.
#[inline(always)]
pub(crate) fn operand_length(pc: usize, form: Form, behind: &[u8]) -> usize
    ensures exact { result ≡ operand_length pc form behind.now }
    ensures bound { result < 2 ^ 36 }
{
    match free_length(form) {
        Some(length) => length,
        None => bound_length(pc, form, behind),
    }
}

/// How many bytes an operand of the form has, where any bytes are one.
#[inline(always)]
pub(crate) fn free_length(form: Form) -> Option<usize>
    ensures free { IfSome result (IsFree form) }
    ensures bound { IfSome result (λ length. length < 5) }
    ensures none { IsNone result → IsBound form }
{
    length_in(&LENGTHS, form)
}

/// The entry of a form in a table.
#[inline(always)]
fn length_in(lengths: &[Option<usize>; 17], form: Form) -> Option<usize>
    ensures { result ≡ slice_index_or lengths.now (number_of form) None }
{
    lengths[form as usize]
}

/// How many bytes stand behind an opcode of a form of which not any bytes are an operand, as far as these tell.
#[inline(never)]
pub(crate) fn bound_length(pc: usize, form: Form, behind: &[u8]) -> usize
    requires { IsBound form }
    ensures exact { result ≡ operand_length pc form behind.now }
    ensures bound { result < 2 ^ 36 }
{
    match form {
        Form::ArrayCode => 1,
        Form::Dimensions => 3,
        Form::Interface | Form::Dynamic => 4,
        Form::Table => padding_length(pc) + table_length(behind_padding(pc, behind)),
        Form::Lookup => padding_length(pc) + lookup_length(behind_padding(pc, behind)),
        _ => unreachable!(),
    }
}
