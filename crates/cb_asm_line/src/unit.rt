// Units of names and of texts, read.
ghost use Rattle.std.specs.Prelude.{◌≡◌, ◌≢◌, ◌↔◌, ◌⊎◌, ℕ, ◌^◌, ◌<◌, List, [], ◌∷◌, ◌++◌, drop, IfOk, IsTrue, MatchOption, true};
ghost use Rattle.std.specs.Fmt.{digit_glyph};
ghost use Rattle.cb_asm_line.specs.Inner.{BeginsWithUnit, SpellUnits, stands_alone as may_stand_alone};
ghost use Rattle.cb_asm_line.specs.Quoting.{backslash, escape, quote};

use crate::name::is_plain;
use cb_text::Units;
use std::alloc::{AllocError as OutOfMemory, Global};

/// The unit at the front of a word, as it stands in a text or in a name, and the word behind it, or `None` where none
/// stands there.
fn unit_at(word: &[u8], in_text: bool) -> Option<(u16, &[u8])>
    ensures { MatchOption result ((unit : ℕ) (rest : List ℕ) → BeginsWithUnit in_text word.now unit rest → ⊥)
        (λ read. BeginsWithUnit in_text word.now read.0 read.1.now) }
{
    match word {
        [first, rest @ ..] if *first == b'\\' => marked_at(rest, in_text),
        [first, rest @ ..] if stands_alone(u16::from(*first), in_text) => Some((
            u16::from(*first),
            rest,
        )),
        _ => None,
    }
}

/// Whether a unit stands there by itself.
fn stands_alone(unit: u16, in_text: bool) -> bool
    ensures { result ≡ may_stand_alone in_text unit }
{
    if in_text {
        (0x20..=0x7E).contains(&unit) && unit != u16::from(b'"') && unit != u16::from(b'\\')
    } else {
        is_plain(unit)
    }
}

/// The unit that a backslash stands before, by what is behind the backslash.
fn marked_at(behind: &[u8], in_text: bool) -> Option<(u16, &[u8])>
    ensures { MatchOption result ((unit : ℕ) (rest : List ℕ) → BeginsWithUnit in_text (backslash ∷ behind.now) unit rest → ⊥)
        (λ read. BeginsWithUnit in_text (backslash ∷ behind.now) read.0 read.1.now) }
{
    match behind {
        [] => None,
        [mark, rest @ ..] if is_mark(*mark, in_text) => Some((u16::from(*mark), rest)),
        _ => escaped_at(behind),
    }
}

/// Whether a backslash may stand before a unit there: before a quote and a backslash in a text.
fn is_mark(unit: u8, in_text: bool) -> bool
    ensures { IsTrue result ↔ IsTrue in_text × ((unit ≡ quote) ⊎ (unit ≡ backslash)) }
{
    in_text && (unit == b'"' || unit == b'\\')
}

/// The unit whose digits stand behind a backslash and `u`, by what is behind the backslash.
fn escaped_at(behind: &[u8]) -> Option<(u16, &[u8])>
    ensures { MatchOption result ((unit : ℕ) (rest : List ℕ) → unit < 2 ^ 16 → behind.now ≢ drop 1 (escape unit) ++ rest)
        (λ read. (read.0 < 2 ^ 16) × (behind.now ≡ drop 1 (escape read.0) ++ read.1.now)) }
{
    match behind {
        [mark, a, b, c, d, rest @ ..] if *mark == b'u' => match unit_of(*a, *b, *c, *d) {
            Some(unit) => Some((unit, rest)),
            None => None,
        },
        _ => None,
    }
}

/// The unit of four digits.
fn unit_of(a: u8, b: u8, c: u8, d: u8) -> Option<u16>
    ensures { MatchOption result ((unit : ℕ) → unit < 2 ^ 16 → a ∷ b ∷ c ∷ d ∷ [] ≢ drop 2 (escape unit))
        (λ unit. a ∷ b ∷ c ∷ d ∷ [] ≡ drop 2 (escape unit)) }
{
    match (digit_of(a), digit_of(b), digit_of(c), digit_of(d)) {
        (Some(a), Some(b), Some(c), Some(d)) => Some(
            0x1000 * u16::from(a) + 0x100 * u16::from(b) + 0x10 * u16::from(c) + u16::from(d),
        ),
        _ => None,
    }
}

/// The value of a hexadecimal digit in upper case.
fn digit_of(glyph: u8) -> Option<u8>
    ensures { MatchOption result ((value : ℕ) → value < 16 → glyph ≢ digit_glyph true value)
        (λ value. (value < 16) × (glyph ≡ digit_glyph true value)) }
{
    match glyph {
        b'0'..=b'9' => Some(glyph - b'0'),
        b'A'..=b'F' => Some(glyph - b'A' + 10),
        _ => None,
    }
}

/// The units of a word, each by itself or escaped, or `None` where something else stands in it.
pub(crate) fn units_of(
    alloc: Global,
    word: &[u8],
    in_text: bool,
) -> Result<Option<Units>, OutOfMemory>
    ensures { IfOk result (λ found. MatchOption found ((units : List ℕ) → SpellUnits in_text word.now units → ⊥) (λ units. SpellUnits in_text word.now units)) }
{
    let mut units = Units::new(alloc);
    let mut rest = word;
    while let Some((unit, behind)) = unit_at(rest, in_text) {
        units.push(unit)?;
        rest = behind;
    }
    if rest.is_empty() {
        Ok(Some(units))
    } else {
        Ok(None)
    }
}
