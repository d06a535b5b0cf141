// Labels, read.
ghost use Rattle.std.specs.Prelude.{◌≡◌, ◌↔◌, ◌≢◌, ◌++◌, ◌∷◌, [], ℕ, List as Items, IfOk, IsTrue, MatchOption};
ghost use Rattle.std.specs.List.{AllByRecursion};
ghost use Rattle.cb_asm_line.specs.Numbers.{IsDecimal, IsDigit};
ghost use Rattle.cb_asm_line.specs.Operands.{label_word};
ghost use Rattle.cb_asm_line.specs.Said.{IsHere, IsLabel};

use crate::Label;
use std::alloc::{AllocError as OutOfMemory, Global};

/// The label that a word names, or `None` where it names none.
pub(crate) fn label_of(alloc: Global, word: &[u8]) -> Result<Option<Label>, OutOfMemory>
    ensures { IfOk result (λ found. MatchOption found ((label : Items ℕ) → IsLabel word.now label → ⊥) (λ label. IsLabel word.now label)) }
{
    match digits_of(word) {
        Some(digits) => Ok(Some(copied(alloc, digits)?)),
        None => Ok(None),
    }
}

/// The label that stands at a place, with a colon behind it, or `None` where the word is none.
pub(crate) fn label_here(alloc: Global, word: &[u8]) -> Result<Option<Label>, OutOfMemory>
    ensures { IfOk result (λ found. MatchOption found ((label : Items ℕ) → IsHere word.now label → ⊥) (λ label. IsHere word.now label)) }
{
    match word {
        [front @ .., last] if *last == b':' => label_of(alloc, front),
        _ => Ok(None),
    }
}

/// The same digits.
fn copied(alloc: Global, digits: &[u8]) -> Result<Label, OutOfMemory>
    ensures { IfOk result (λ label. label ≡ digits.now) }
{
    let mut label = Label::with_capacity(alloc, digits.len())?;
    for digit in digits {
        label.push(*digit)?;
    }
    Ok(label)
}

/// The digits of the label that a word names, or `None` where it names none.
fn digits_of(word: &[u8]) -> Option<&[u8]>
    ensures { MatchOption result ((label : Items ℕ) → IsLabel word.now label → ⊥) (λ label. IsLabel word.now label.now) }
{
    match word {
        [first, digits @ ..] if *first == b'L' && is_decimal(digits) => Some(digits),
        _ => None,
    }
}

/// Whether a word has the digits of a number.
fn is_decimal(word: &[u8]) -> bool
    ensures { IsTrue result ↔ IsDecimal word.now }
{
    match word {
        [] => false,
        [digit] => digit.is_ascii_digit(),
        [digit, digits @ ..] => *digit != b'0' && digit.is_ascii_digit() && are_digits(digits),
    }
}

/// Whether a word has digits alone.
fn are_digits(word: &[u8]) -> bool
    ensures { IsTrue result ↔ AllByRecursion IsDigit word.now }
{
    word.iter().all(|digit| digit.is_ascii_digit())
}
