// Lines of code, read.
ghost use Rattle.std.specs.Prelude.{ℕ, List, map, IfOk, MatchOption};
ghost use Rattle.cb_asm_line.specs.Said.{IsHere, One};
ghost use Rattle.cb_asm_line.specs.SaidCode.{SaysCode, SaysForm, SaysInstruction, SaysNamedInstruction, SaysWide};
ghost use Rattle.cb_asm_line.specs.declared.operand.Instruction.{Instruction as AnyInstruction};
ghost use Rattle.cb_asm_line.specs.declared.operand.Operand.{Operand as AnyOperand};
ghost use Rattle.cb_asm_line.specs.declared.program.CodeLine.{CodeLine as AnyLine};

use crate::arity::{front, one};
use crate::label::label_here;
use crate::mnemonic::{is_same, opcode_of};
use crate::named_operand::kind_operand;
use crate::operand_words::{
    array_operand, branch_operand, dimensions_operand, increase_operand, local_operand, no_operand,
    number_operand,
};
use crate::switch_words::{lookup_operand, table_operand};
use crate::{CodeLine, Instruction, Label, Operand};
use cb_classfile::{ConstantKind, kind_needed};
use cb_insn::{Form, head_form};
use std::alloc::{AllocError as OutOfMemory, Global};

/// The line of code that the words say, or `None` where they say none.
pub(crate) fn code_of(alloc: Global, words: &[&[u8]]) -> Result<Option<CodeLine>, OutOfMemory>
    ensures { IfOk result (λ found. MatchOption found ((line : AnyLine) → SaysCode (map (λ word. word.now) words.now) line → ⊥)
        (λ line. SaysCode (map (λ word. word.now) words.now) line)) }
{
    if let Some(label) = here_of(alloc, words)? {
        return Ok(Some(CodeLine::Here(label)));
    }
    match instruction_of(alloc, words)? {
        Some(instruction) => Ok(Some(CodeLine::Do(instruction))),
        None => Ok(None),
    }
}

/// The label that stands at a place.
fn here_of(alloc: Global, words: &[&[u8]]) -> Result<Option<Label>, OutOfMemory>
    ensures { IfOk result (λ found. MatchOption found ((label : List ℕ) → One IsHere (map (λ word. word.now) words.now) label → ⊥)
        (λ label. One IsHere (map (λ word. word.now) words.now) label)) }
{
    match one(words) {
        Some(word) => label_here(alloc, word),
        None => Ok(None),
    }
}

/// The instruction that the words say.
fn instruction_of(alloc: Global, words: &[&[u8]]) -> Result<Option<Instruction>, OutOfMemory>
    ensures { IfOk result (λ found. MatchOption found ((instruction : AnyInstruction) → SaysInstruction (map (λ word. word.now) words.now) instruction → ⊥)
        (λ instruction. SaysInstruction (map (λ word. word.now) words.now) instruction)) }
{
    if let Some(instruction) = wide_instruction(alloc, words)? {
        return Ok(Some(instruction));
    }
    match named_instruction(alloc, false, words)? {
        Some(instruction) => Ok(Some(instruction)),
        None => Ok(None),
    }
}

/// The instruction that the words say, with `wide` before it.
fn wide_instruction(alloc: Global, words: &[&[u8]]) -> Result<Option<Instruction>, OutOfMemory>
    ensures { IfOk result (λ found. MatchOption found ((instruction : AnyInstruction) → SaysWide (map (λ word. word.now) words.now) instruction → ⊥)
        (λ instruction. SaysWide (map (λ word. word.now) words.now) instruction)) }
{
    let Some((key, rest)) = front(words) else {
        return Ok(None);
    };
    if !is_same("wide", key) {
        return Ok(None);
    }
    match named_instruction(alloc, true, rest)? {
        Some(instruction) => Ok(Some(instruction)),
        None => Ok(None),
    }
}

/// The instruction that the words say from its name on, behind `wide` or not.
fn named_instruction(
    alloc: Global,
    wide: bool,
    words: &[&[u8]],
) -> Result<Option<Instruction>, OutOfMemory>
    ensures { IfOk result (λ found. MatchOption found ((instruction : AnyInstruction) → SaysNamedInstruction wide (map (λ word. word.now) words.now) instruction → ⊥)
        (λ instruction. SaysNamedInstruction wide (map (λ word. word.now) words.now) instruction)) }
{
    let Some((name, rest)) = front(words) else {
        return Ok(None);
    };
    let Some(opcode) = opcode_of(name) else {
        return Ok(None);
    };
    let Some(form) = head_form(wide, opcode) else {
        return Ok(None);
    };
    match form_operand(alloc, kind_needed(opcode), form, rest)? {
        Some(operand) => Ok(Some(Instruction {
            opcode,
            wide,
            operand,
        })),
        None => Ok(None),
    }
}

/// The operand of a form.
fn form_operand(
    alloc: Global,
    kind: Option<ConstantKind>,
    form: Form,
    words: &[&[u8]],
) -> Result<Option<Operand>, OutOfMemory>
    ensures { IfOk result (λ found. MatchOption found ((operand : AnyOperand) → SaysForm kind form (map (λ word. word.now) words.now) operand → ⊥)
        (λ operand. SaysForm kind form (map (λ word. word.now) words.now) operand)) }
{
    match form {
        Form::Plain => Ok(no_operand(words)),
        Form::Byte | Form::Short => Ok(number_operand(words)),
        Form::PoolByte | Form::Pool | Form::Interface => kind_operand(alloc, kind, words),
        Form::Local | Form::WideLocal => Ok(local_operand(words)),
        Form::Increase | Form::WideIncrease => Ok(increase_operand(words)),
        Form::Branch | Form::LongBranch => branch_operand(alloc, words),
        Form::ArrayCode => Ok(array_operand(words)),
        Form::Dimensions => dimensions_operand(alloc, words),
        Form::Table => table_operand(alloc, words),
        Form::Lookup => lookup_operand(alloc, words),
        Form::Dynamic => Ok(None),
    }
}
