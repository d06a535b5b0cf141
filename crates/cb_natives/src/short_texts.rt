// Short texts: of numbers, chars and booleans (Java SE 8 API, java.lang.Integer, Long, Character and Boolean).
ghost use Rattle.std.specs.Prelude.{◌≡◌, ◌≤◌, ◌<◌, ◌==◌, ◌∷◌, [], drop, false, length};
ghost use Rattle.std.specs.Fmt.{digit_glyph, radix_digits};
ghost use Rattle.cb_arith.specs.Bits.{low_bits};
ghost use Rattle.cb_machine.specs.Texts.{digits, hex_digits, truth, unit_of};
ghost use Rattle.cb_natives.specs.Pieces.{Spells};

use crate::low_bits::{low_bit, unit_of};
use crate::pieces::Piece;
use itoa::Buffer;

/// The digits of the longest number in base 16.
const HEX_DIGITS: usize = 8;

/// The text of a number in decimal.
pub(crate) fn decimal_text(number: i64) -> Piece
    ensures { Spells (digits number) result }
{
    let mut buffer = Buffer::new();
    let text = buffer.format(number).as_bytes();
    ascii_text(text)
}

/// The text of the low 32 bits of a number in base 16.
pub(crate) fn hex_text(number: i32) -> Piece
    ensures { Spells (hex_digits number) result }
{
    let mut bytes = [0; HEX_DIGITS];
    let start = write_hex(low_word(number), &mut bytes);
    ascii_text(&bytes[start..])
}

/// `true` or `false`, by the lowest bit of a number.
pub(crate) fn truth_text(number: i32) -> Piece
    ensures { Spells (truth number) result }
{
    if is_true(number) {
        ascii_text(b"true")
    } else {
        ascii_text(b"false")
    }
}

/// The text of the unit that the low 16 bits of a number are.
pub(crate) fn unit_text(number: i32) -> Piece
    ensures { Spells (unit_of number ∷ []) result }
{
    let mut units = [0; 24];
    units[0] = unit_of(number);
    Piece::Short { units, count: 1 }
}

/// No units.
pub(crate) fn no_text() -> Piece
    ensures { Spells [] result }
{
    Piece::Zeros(0)
}

/// A short text in ASCII.
pub(crate) fn ascii_text(text: &[u8]) -> Piece
    requires { length text.now ≤ 24 }
    ensures { Spells text.now result }
{
    let mut units = [0; 24];
    for (i, byte) in text.iter().enumerate() {
        units[i] = u16::from(*byte);
    }
    Piece::Short {
        units,
        count: text.len() as u32,
    }
}

/// Whether a number is a boolean that is true: it counts by its lowest bit.
fn is_true(number: i32) -> bool
    ensures { result ≡ (low_bits 1 number == 1) }
{
    low_bit(number) == 1
}

/// The low 32 bits of a number.
fn low_word(number: i32) -> u32
    ensures { result ≡ low_bits 32 number }
{
    i64::from(number).rem_euclid(1 << 32) as u32
}

/// Writes the digits of a number in base 16 to the end of the bytes, and answers where they begin.
fn write_hex(number: u32, bytes: &mut [u8; HEX_DIGITS]) -> usize
    ensures within { result ≤ 8 }
    ensures digits { drop result bytes.new ≡ radix_digits 16 false number }
{
    let mut rest = number;
    let mut start = HEX_DIGITS - 1;
    while rest >= 16 {
        bytes[start] = hex_digit(rest % 16);
        rest /= 16;
        start -= 1;
    }
    bytes[start] = hex_digit(rest);
    start
}

/// A digit in base 16.
fn hex_digit(digit: u32) -> u8
    requires { digit < 16 }
    ensures { result ≡ digit_glyph false digit }
{
    if digit < 10 {
        48 + digit as u8
    } else {
        87 + digit as u8
    }
}
