// UTF-16 units as UTF-8 (RFC 3629).
ghost use Rattle.std.specs.Prelude.{◌≡◌, ◌+◌, ◌<◌, ◌≤◌, ◌++◌, ◌&&◌, [], true, length, take, IsErr, IfOk, IfSome, MatchOption, OnOk, OnErr, string_bytes, unwrap_or};
ghost use Rattle.std.specs.Char.{encode_utf8};
ghost use Rattle.std.specs.Char.Utf16.{is_high_surrogate, is_low_surrogate, lone_unit_char, surrogate_pair_char};
ghost use Rattle.std.specs.Io.KnownBytes.{Appends};
ghost use Rattle.cb_io.specs.Faults.{CountsFaults};
ghost use Rattle.cb_io.specs.Sink.{AppendsProperPrefix};
ghost use Rattle.cb_io.specs.Utf8.{question_mark, utf8};

use crate::{Failed, Sink, write_all};
use cb_plain::OutOfMemory;
use std::alloc::Global;

/// How many bytes are written in one call at most.
const PIECE: usize = 256;

/// How many bytes the longest character takes (RFC 3629, section 3).
const LONGEST: usize = 4;

/// Writes UTF-16 units as UTF-8, with `?` for a surrogate without its partner. After a failed call the sink has taken
/// a proper prefix of that text, and isn't called again. Takes time in the number of units.
pub fn utf8_of<S: Sink>(units: &[u16], sink: &mut S) -> Result<(), Failed>
    ensures all { OnOk result (Appends (S.taken sink.old) (S.taken sink.new) (utf8 units.now)) }
    ensures part { OnErr result (AppendsProperPrefix (S.taken sink.old) (S.taken sink.new) (utf8 units.now)) }
    ensures cause { CountsFaults (S.faults sink.old) (S.faults sink.new) (IsErr result) }
{
    let mut rest = units;
    while !rest.is_empty() {
        let mut piece = [0; PIECE];
        let (filled, behind) = fill(&mut piece, rest);
        write_all(sink, &piece[..filled])?;
        rest = behind;
    }
    Ok(())
}

/// UTF-16 units as text, with `?` for a surrogate without its partner. `OutOfMemory` where no memory was to be had. Takes
/// time in the number of units.
pub fn text_of(alloc: Global, units: &[u16]) -> Result<String, OutOfMemory>
    ensures { IfOk result (λ text. string_bytes text ≡ utf8 units.now) }
{
    let mut text = String::new(alloc);
    let mut rest = units;
    while let Some((character, behind)) = character_at(rest) {
        text.push(character)?;
        rest = behind;
    }
    Ok(text)
}

/// Fills a piece with the characters at the front of the units, while there is room for any character. Gives how many
/// bytes that took, and the units behind them.
fn fill<'a>(piece: &mut [u8; PIECE], units: &'a [u16]) -> (usize, &'a [u16])
    ensures few { result.0 ≤ PIECE }
    ensures shorter { 0 < length units.now → length result.1.now < length units.now }
    ensures read { utf8 units.now ≡ take result.0 piece.new ++ utf8 result.1.now }
{
    let mut filled = 0;
    let mut rest = units;
    while filled <= PIECE - LONGEST {
        let Some((character, behind)) = character_at(rest) else {
            break;
        };
        let mut buffer = [0; LONGEST];
        let text = character.encode_utf8(&mut buffer);
        put(piece, filled, text.as_bytes());
        filled += text.len();
        rest = behind;
    }
    (filled, rest)
}

/// Puts bytes into a piece behind its first `filled` bytes, which stay.
fn put(piece: &mut [u8; PIECE], filled: usize, bytes: &[u8])
    requires { filled + length bytes.now ≤ PIECE }
    ensures { take (filled + length bytes.now) piece.new ≡ take filled piece.old ++ bytes.now }
{
    for (index, byte) in bytes.iter().enumerate() {
        piece[filled + index] = *byte;
    }
}

/// The character at the front of the units, or `?` for a surrogate without its partner, and the units behind it.
fn character_at(units: &[u16]) -> Option<(char, &[u16])>
    ensures shorter { IfSome result (λ read. length read.1.now < length units.now) }
    ensures read { MatchOption result (units.now ≡ [])
        (λ read. utf8 units.now ≡ encode_utf8 read.0 ++ utf8 read.1.now) }
{
    match units {
        [] => None,
        [high, low, behind @ ..] if is_pair(*high, *low) => Some((
            character_of_pair(*high, *low),
            behind,
        )),
        [unit, behind @ ..] => Some((character_alone(*unit), behind)),
    }
}

/// Whether the units are a pair of surrogates.
fn is_pair(high: u16, low: u16) -> bool
    ensures { result ≡ (is_high_surrogate high && is_low_surrogate low) }
{
    matches!(high, 0xD800..=0xDBFF) && matches!(low, 0xDC00..=0xDFFF)
}

/// The character of a pair of surrogates.
fn character_of_pair(high: u16, low: u16) -> char
    requires { is_high_surrogate high && is_low_surrogate low ≡ true }
    ensures { result ≡ surrogate_pair_char high low }
{
    let code = 0x1_0000 + (u32::from(high) - 0xD800) * 0x400 + (u32::from(low) - 0xDC00);
    char::from_u32(code).unwrap_or('?')
}

/// The character of a unit that is in no pair.
fn character_alone(unit: u16) -> char
    ensures { result ≡ unwrap_or (lone_unit_char unit) question_mark }
{
    char::from_u32(u32::from(unit)).unwrap_or('?')
}
