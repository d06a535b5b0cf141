// The operands that name no constant, read.
ghost use Rattle.std.specs.Prelude.{◌≡◌, ℕ, ℤ, List, map, IfOk, MatchOption};
ghost use Rattle.cb_asm_line.specs.Said.{IsLabel, IsSmall, One, Two};
ghost use Rattle.cb_asm_line.specs.SaidCode.{Has, HasNothing, IsArrayType, IsShort, SaysDimensions, SaysIncrease};
ghost use Rattle.cb_asm_line.specs.declared.operand.Operand.{Operand as AnyOperand};
ghost use Rattle.cb_asm_line.specs.declared.operand.Operand.TheVariants as operands;

use crate::arity::{one, two};
use crate::label::label_of;
use crate::mnemonic::array_code_of;
use crate::number::{byte, short, small};
use crate::word::name_of;
use crate::{Label, Operand};
use cb_text::Units;
use std::alloc::{AllocError as OutOfMemory, Global};

/// No operand.
pub(crate) fn no_operand(words: &[&[u8]]) -> Option<Operand>
    ensures { MatchOption result ((operand : AnyOperand) → HasNothing (map (λ word. word.now) words.now) operand → ⊥)
        (λ operand. HasNothing (map (λ word. word.now) words.now) operand) }
{
    if words.is_empty() {
        Some(Operand::Nothing)
    } else {
        None
    }
}

/// A number.
pub(crate) fn number_operand(words: &[&[u8]]) -> Option<Operand>
    ensures { MatchOption result ((operand : AnyOperand) → Has operands.Number (One IsShort) (map (λ word. word.now) words.now) operand → ⊥)
        (λ operand. Has operands.Number (One IsShort) (map (λ word. word.now) words.now) operand) }
{
    match short_of(words) {
        Some(number) => Some(Operand::Number(number)),
        None => None,
    }
}

/// The number that the only word is.
fn short_of(words: &[&[u8]]) -> Option<i16>
    ensures { MatchOption result ((number : ℤ) → One IsShort (map (λ word. word.now) words.now) number → ⊥)
        (λ number. One IsShort (map (λ word. word.now) words.now) number) }
{
    short(one(words)?)
}

/// A local.
pub(crate) fn local_operand(words: &[&[u8]]) -> Option<Operand>
    ensures { MatchOption result ((operand : AnyOperand) → Has operands.Local (One IsSmall) (map (λ word. word.now) words.now) operand → ⊥)
        (λ operand. Has operands.Local (One IsSmall) (map (λ word. word.now) words.now) operand) }
{
    match local_of(words) {
        Some(local) => Some(Operand::Local(local)),
        None => None,
    }
}

/// The local that the only word is.
fn local_of(words: &[&[u8]]) -> Option<u16>
    ensures { MatchOption result ((local : ℕ) → One IsSmall (map (λ word. word.now) words.now) local → ⊥)
        (λ local. One IsSmall (map (λ word. word.now) words.now) local) }
{
    small(one(words)?)
}

/// A local and what is added to it.
pub(crate) fn increase_operand(words: &[&[u8]]) -> Option<Operand>
    ensures { MatchOption result ((operand : AnyOperand) → Has (λ pair. operands.Increase pair.0 pair.1) (Two SaysIncrease) (map (λ word. word.now) words.now) operand → ⊥)
        (λ operand. Has (λ pair. operands.Increase pair.0 pair.1) (Two SaysIncrease) (map (λ word. word.now) words.now) operand) }
{
    match increase_of(words) {
        Some((local, by)) => Some(Operand::Increase(local, by)),
        None => None,
    }
}

/// The local and the number that two words are.
fn increase_of(words: &[&[u8]]) -> Option<(u16, i16)>
    ensures { MatchOption result ((pair : ℕ × ℤ) → Two SaysIncrease (map (λ word. word.now) words.now) pair → ⊥)
        (λ pair. Two SaysIncrease (map (λ word. word.now) words.now) pair) }
{
    let (local, by) = two(words)?;
    let local = small(local)?;
    let by = short(by)?;
    Some((local, by))
}

/// A primitive type.
pub(crate) fn array_operand(words: &[&[u8]]) -> Option<Operand>
    ensures { MatchOption result ((operand : AnyOperand) → Has operands.Array (One IsArrayType) (map (λ word. word.now) words.now) operand → ⊥)
        (λ operand. Has operands.Array (One IsArrayType) (map (λ word. word.now) words.now) operand) }
{
    match array_of(words) {
        Some(code) => Some(Operand::Array(code)),
        None => None,
    }
}

/// The code of the primitive type that the only word is.
fn array_of(words: &[&[u8]]) -> Option<u8>
    ensures { MatchOption result ((code : ℕ) → One IsArrayType (map (λ word. word.now) words.now) code → ⊥)
        (λ code. One IsArrayType (map (λ word. word.now) words.now) code) }
{
    let word = one(words)?;
    let code = array_code_of(word)?;
    Some(code)
}

/// A label.
pub(crate) fn branch_operand(alloc: Global, words: &[&[u8]]) -> Result<Option<Operand>, OutOfMemory>
    ensures { IfOk result (λ found. MatchOption found ((operand : AnyOperand) → Has operands.Branch (One IsLabel) (map (λ word. word.now) words.now) operand → ⊥)
        (λ operand. Has operands.Branch (One IsLabel) (map (λ word. word.now) words.now) operand)) }
{
    match target_of(alloc, words)? {
        Some(label) => Ok(Some(Operand::Branch(label))),
        None => Ok(None),
    }
}

/// The label that the only word is.
fn target_of(alloc: Global, words: &[&[u8]]) -> Result<Option<Label>, OutOfMemory>
    ensures { IfOk result (λ found. MatchOption found ((label : List ℕ) → One IsLabel (map (λ word. word.now) words.now) label → ⊥)
        (λ label. One IsLabel (map (λ word. word.now) words.now) label)) }
{
    match one(words) {
        Some(word) => label_of(alloc, word),
        None => Ok(None),
    }
}

/// An array's class and a number of dimensions.
pub(crate) fn dimensions_operand(
    alloc: Global,
    words: &[&[u8]],
) -> Result<Option<Operand>, OutOfMemory>
    ensures { IfOk result (λ found. MatchOption found ((operand : AnyOperand) → Has (λ pair. operands.Dimensions pair.0 pair.1) (Two SaysDimensions) (map (λ word. word.now) words.now) operand → ⊥)
        (λ operand. Has (λ pair. operands.Dimensions pair.0 pair.1) (Two SaysDimensions) (map (λ word. word.now) words.now) operand)) }
{
    match dimensions_of(alloc, words)? {
        Some((class, dimensions)) => Ok(Some(Operand::Dimensions(class, dimensions))),
        None => Ok(None),
    }
}

/// The class and the number that two words are.
fn dimensions_of(alloc: Global, words: &[&[u8]]) -> Result<Option<(Units, u8)>, OutOfMemory>
    ensures { IfOk result (λ found. MatchOption found ((pair : List ℕ × ℕ) → Two SaysDimensions (map (λ word. word.now) words.now) pair → ⊥)
        (λ pair. Two SaysDimensions (map (λ word. word.now) words.now) pair)) }
{
    match two(words) {
        Some((class, dimensions)) => dimensions_line(alloc, class, dimensions),
        None => Ok(None),
    }
}

/// The same by the two words.
fn dimensions_line(
    alloc: Global,
    class: &[u8],
    dimensions: &[u8],
) -> Result<Option<(Units, u8)>, OutOfMemory>
    ensures { IfOk result (λ found. MatchOption found ((pair : List ℕ × ℕ) → SaysDimensions class.now dimensions.now pair → ⊥)
        (λ pair. SaysDimensions class.now dimensions.now pair)) }
{
    let Some(dimensions) = byte(dimensions) else {
        return Ok(None);
    };
    match name_of(alloc, class)? {
        Some(class) => Ok(Some((class, dimensions))),
        None => Ok(None),
    }
}
