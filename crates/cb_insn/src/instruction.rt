// The whole instruction at a place.
ghost use Rattle.std.specs.Prelude.{◌≡◌, ◌^◌, ◌<◌, ℕ, Bool, List, length, All, IfOk, IfErr, IfSome, IsNone};
ghost use Rattle.cb_insn.specs.declared.form.Form.{Form};
ghost use Rattle.cb_insn.specs.Faults.{Whole, standing_at, targets_at};
ghost use Rattle.cb_insn.specs.Inner.{HasHead, IsPlain, IsRead, plain_insn, IsMarked, Misses};

use crate::form::{Form, form_of, wide_form_of};
use crate::length::operand_length;
use crate::opcode::WIDE;
use crate::operand::operand_at;
use crate::{Insn, InsnFault, Operand};
use std::alloc::Global;

/// An opcode with its form, and what stands behind it.
#[derive(Clone, Copy, Debug)]
struct Head<'a> {
    wide: bool,
    opcode: u8,
    form: Form,
    behind: &'a [u8],
}

/// The whole instruction at a place, by the bytes from there on, and of how many it is. Its targets have marks, or
/// one that has none is told. Takes time in the length of the instruction.
#[inline(always)]
pub(crate) fn instruction_at(
    alloc: Global,
    pc: usize,
    rest: &[u8],
    starts: &[bool],
) -> Result<(Insn, usize), InsnFault>
    requires place { pc < 2 ^ 32 }
    requires few { length starts.now < 2 ^ 32 }
    requires whole { (size : ℕ) × (standing_at pc rest.now ≡ Whole size) }
    ensures read { IfOk result (λ read. IsRead pc read.0 rest.now) }
    ensures size { IfOk result (λ read. standing_at pc rest.now ≡ Whole read.1) }
    ensures marked { IfOk result (λ read. All (IsMarked starts.now) (targets_at pc rest.now)) }
    ensures err { IfErr result (Misses pc (targets_at pc rest.now) starts.now) }
{
    let Some(head) = head_at(rest) else {
        unreachable!()
    };
    let before = if head.wide { 2 } else { 1 };
    let size = before + operand_length(pc, head.form, head.behind);
    let operand = operand_at(alloc, pc, head.form, head.behind, starts)?;
    let insn = Insn {
        opcode: head.opcode,
        wide: head.wide,
        operand,
    };
    Ok((insn, size))
}

/// The opcode at the front of an instruction that has no operand, or `None` where none stands there. Most instructions
/// have none, and are read by this alone.
#[inline(always)]
pub(crate) fn plain_at(rest: &[u8]) -> Option<u8>
    ensures { IfSome result (λ opcode. IsPlain opcode rest.now) }
{
    let (opcode, _) = rest.split_first()?;
    match form_of(*opcode)? {
        Form::Plain => Some(*opcode),
        _ => None,
    }
}

/// An instruction without an operand.
#[inline(always)]
pub(crate) fn plain(opcode: u8) -> Insn
    ensures { result ≡ plain_insn opcode }
{
    Insn {
        opcode,
        wide: false,
        operand: Operand::Nothing,
    }
}

/// The opcode at the front, or `None` where none stands there that has a form.
#[inline(always)]
fn head_at(rest: &[u8]) -> Option<Head<'_>>
    ensures found { IfSome result (λ head. HasHead head.wide head.opcode head.form head.behind.now rest.now) }
    ensures none { IsNone result → (wide : Bool) (opcode : ℕ) (form : Form) (behind : List ℕ)
        → HasHead wide opcode form behind rest.now → ⊥ }
{
    let (first, behind) = rest.split_first()?;
    if *first != WIDE {
        return Some(Head {
            wide: false,
            opcode: *first,
            form: form_of(*first)?,
            behind,
        });
    }
    let (opcode, behind) = behind.split_first()?;
    Some(Head {
        wide: true,
        opcode: *opcode,
        form: wide_form_of(*opcode)?,
        behind,
    })
}
