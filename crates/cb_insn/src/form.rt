// The forms of operands.
ghost use Rattle.std.specs.Prelude.{◌≡◌, ◌<◌, slice_index_or, None};
ghost use Rattle.cb_insn.specs.Forms.{form_of, head_form, wide_form_of};

use crate::form_table::FORMS;
use crate::opcode;

/// What stands behind an opcode.
#[derive(Clone, Copy, Debug, PartialEq, Eq)]
pub enum Form {
    /// Nothing.
    Plain,
    /// A number of one byte with a sign.
    Byte,
    /// A number of two bytes with a sign.
    Short,
    /// An index of the pool in one byte.
    PoolByte,
    /// An index of the pool in two bytes.
    Pool,
    /// A local in one byte.
    Local,
    /// A local in two bytes, behind `wide`.
    WideLocal,
    /// A local in one byte and a number of one byte with a sign.
    Increase,
    /// The same in two bytes each, behind `wide`.
    WideIncrease,
    /// An offset of two bytes.
    Branch,
    /// An offset of four bytes.
    LongBranch,
    /// Padding, offsets and the bounds of a table.
    Table,
    /// Padding, offsets and the number of pairs.
    Lookup,
    /// The code of a primitive type.
    ArrayCode,
    /// An index of the pool and a number of dimensions.
    Dimensions,
    /// An index of the pool, a count and a zero.
    Interface,
    /// An index of the pool and two zeros.
    Dynamic,
}

/// The form behind an opcode other than `wide`, or `None` where there is no such instruction (JVMS chapter 6).
#[inline(always)]
pub(crate) fn form_of(opcode: u8) -> Option<Form>
    ensures { result ≡ form_of opcode }
{
    if opcode > opcode::JSR_W {
        return None;
    }
    form_in(&FORMS, opcode)
}

/// The entry of an opcode in a table.
#[inline(always)]
fn form_in(forms: &[Option<Form>; 202], opcode: u8) -> Option<Form>
    requires { opcode < 202 }
    ensures { result ≡ slice_index_or forms.now opcode None }
{
    forms[usize::from(opcode)]
}

/// The form behind `wide` and an opcode, which is one of a local or `iinc` (JVMS §6.5).
pub(crate) fn wide_form_of(opcode: u8) -> Option<Form>
    ensures { result ≡ wide_form_of opcode }
{
    match form_of(opcode)? {
        Form::Local => Some(Form::WideLocal),
        Form::Increase => Some(Form::WideIncrease),
        _ => None,
    }
}

/// The form of the operand behind an opcode, or behind `wide` and an opcode, or `None` where there is no such
/// instruction (JVMS chapter 6).
pub fn head_form(wide: bool, opcode: u8) -> Option<Form>
    ensures { result ≡ head_form wide opcode }
{
    if wide {
        wide_form_of(opcode)
    } else {
        form_of(opcode)
    }
}
