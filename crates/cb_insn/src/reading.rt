// What stands at a place of code.
ghost use Rattle.std.specs.Prelude.{◌≡◌, ◌^◌, ◌<◌, ◌≤◌, ◌||◌, pos, int_lt, drop, length};
ghost use Rattle.cb_insn.specs.Faults.{standing_at, standing_in, operand_length, is_bad, table_low, table_high, lookup_number, lookup_count, lookup_length, numbers_at, keys_fall};
ghost use Rattle.cb_insn.specs.Inner.{told, IsBound};

use crate::form::{Form, form_of, wide_form_of};
use crate::length::{bound_length, free_length};
use crate::numbers::{after, s4_at};
use crate::opcode::WIDE;
use crate::switch::{behind_padding, keys_fall, lookup_count};

/// What stands at a place.
#[derive(Clone, Copy, Debug)]
pub(crate) enum Reading {
    /// A whole instruction of so many bytes.
    Whole(usize),
    /// An instruction that the end of the code cuts.
    Cut,
    /// No instruction's opcode.
    BadOpcode,
    /// An operand that the instruction may not have.
    BadOperand,
}

/// What stands at a place, by the bytes from there on. Takes time in the length of the instruction.
#[inline(always)]
pub(crate) fn reading_at(pc: usize, rest: &[u8]) -> Reading
    ensures { told result ≡ standing_at pc rest.now }
{
    match rest {
        [] => Reading::Cut,
        [WIDE] => Reading::Cut,
        [WIDE, opcode, behind @ ..] => match wide_form_of(*opcode) {
            Some(form) => reading_in(2, pc, form, behind),
            None => Reading::BadOperand,
        },
        [opcode, behind @ ..] => match form_of(*opcode) {
            Some(form) => reading_in(1, pc, form, behind),
            None => Reading::BadOpcode,
        },
    }
}

/// What stands at a place, where the operand has this form and stands behind so many bytes.
#[inline(always)]
fn reading_in(before: usize, pc: usize, form: Form, behind: &[u8]) -> Reading
    requires { before ≤ 2 }
    ensures { told result ≡ standing_in before pc form behind.now }
{
    match free_length(form) {
        Some(size) if size <= behind.len() => Reading::Whole(before + size),
        Some(_) => Reading::Cut,
        None => reading_bound(before, pc, form, behind),
    }
}

/// What stands at a place, where the operand has this form, and not any bytes are one.
#[inline(never)]
fn reading_bound(before: usize, pc: usize, form: Form, behind: &[u8]) -> Reading
    requires few { before ≤ 2 }
    requires form { IsBound form }
    ensures { told result ≡ standing_in before pc form behind.now }
{
    let size = bound_length(pc, form, behind);
    if behind.len() < size {
        return Reading::Cut;
    }
    if is_bad(pc, form, behind) {
        return Reading::BadOperand;
    }
    Reading::Whole(before + size)
}

/// Whether the operand, which is all there, has a value that it may not have.
fn is_bad(pc: usize, form: Form, behind: &[u8]) -> bool
    requires { operand_length pc form behind.now ≤ length behind.now }
    ensures { result ≡ is_bad pc form behind.now }
{
    match form {
        Form::ArrayCode => !matches!(behind[0], 4..=11),
        Form::Dimensions => behind[2] == 0,
        Form::Interface => behind[2] == 0 || behind[3] != 0,
        Form::Dynamic => behind[2] != 0 || behind[3] != 0,
        Form::Table => is_bad_table(behind_padding(pc, behind)),
        Form::Lookup => is_bad_lookup(behind_padding(pc, behind)),
        _ => false,
    }
}

/// Whether a table's low bound is above its high one.
fn is_bad_table(switch: &[u8]) -> bool
    requires { 12 ≤ length switch.now }
    ensures { result ≡ int_lt (table_high switch.now) (table_low switch.now) }
{
    s4_at(after(switch, 8)) < s4_at(after(switch, 4))
}

/// Whether a lookup's number of pairs is below 0, or its keys don't ascend.
fn is_bad_lookup(switch: &[u8]) -> bool
    requires { lookup_length switch.now ≤ length switch.now }
    ensures { result ≡ (int_lt (lookup_number switch.now) (pos 0)
        || keys_fall (numbers_at 8 (lookup_count switch.now) (drop 8 switch.now))) }
{
    s4_at(after(switch, 4)) < 0 || keys_fall(lookup_count(switch), after(switch, 8))
}
