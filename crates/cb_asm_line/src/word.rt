// Words that are names, and words that are texts, read.
ghost use Rattle.std.specs.Prelude.{◌≡◌, ◌≢◌, ◌↔◌, ℕ, ◌<◌, List, IfOk, IsTrue, MatchOption, true};
ghost use Rattle.std.specs.List.{flat_map};
ghost use Rattle.cb_asm_line.specs.Quoting.{name_word, quoted, quoted_unit};
ghost use Rattle.cb_text.specs.Text.{AreUnits};

use crate::mnemonic::is_same;
use crate::name::push_name;
use crate::quote::push_units;
use crate::unit::units_of;
use cb_text::Units;
use std::alloc::{AllocError as OutOfMemory, Global};

/// The name or descriptor that a word is, or `None` where it is none.
pub(crate) fn name_of(alloc: Global, word: &[u8]) -> Result<Option<Units>, OutOfMemory>
    ensures { IfOk result (λ found. MatchOption found ((name : List ℕ) → AreUnits name → word.now ≢ name_word name)
        (λ name. AreUnits name × (word.now ≡ name_word name))) }
{
    match units_of(alloc, word, false)? {
        Some(units) => {
            if says_name(alloc, word, units.as_slice())? {
                Ok(Some(units))
            } else {
                Ok(None)
            }
        }
        None => Ok(None),
    }
}

/// Whether a word is a name.
fn says_name(alloc: Global, word: &[u8], name: &[u16]) -> Result<bool, OutOfMemory>
    ensures { IfOk result (λ told. IsTrue told ↔ (word.now ≡ name_word name.now)) }
{
    let mut text = String::new(alloc);
    push_name(&mut text, name)?;
    Ok(is_same(text.as_str(), word))
}

/// The text that a word is between its quotes, or `None` where it is none.
fn text_within(alloc: Global, word: &[u8]) -> Result<Option<Units>, OutOfMemory>
    ensures { IfOk result (λ found. MatchOption found ((text : List ℕ) → AreUnits text → word.now ≢ flat_map quoted_unit text)
        (λ text. AreUnits text × (word.now ≡ flat_map quoted_unit text))) }
{
    match units_of(alloc, word, true)? {
        Some(units) => {
            if says_text(alloc, word, units.as_slice())? {
                Ok(Some(units))
            } else {
                Ok(None)
            }
        }
        None => Ok(None),
    }
}

/// Whether a word is a text between its quotes.
fn says_text(alloc: Global, word: &[u8], units: &[u16]) -> Result<bool, OutOfMemory>
    ensures { IfOk result (λ told. IsTrue told ↔ (word.now ≡ flat_map quoted_unit units.now)) }
{
    let mut text = String::new(alloc);
    push_units(&mut text, units)?;
    Ok(is_same(text.as_str(), word))
}

/// The text that a word is in quotes, or `None` where it is none.
pub(crate) fn text_of(alloc: Global, word: &[u8]) -> Result<Option<Units>, OutOfMemory>
    ensures { IfOk result (λ found. MatchOption found ((text : List ℕ) → AreUnits text → word.now ≢ quoted text)
        (λ text. AreUnits text × (word.now ≡ quoted text))) }
{
    match word {
        [first, middle @ .., last] if *first == b'"' && *last == b'"' => text_within(alloc, middle),
        _ => Ok(None),
    }
}
