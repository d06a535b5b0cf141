// Numbers as they are written.
ghost use Rattle.std.specs.Prelude.{◌≡◌, ◌≢◌, ◌↔◌, ℕ, ◌+◌, ◌^◌, ◌<◌, ℤ, pos, negsuc, ◌≤ℤ◌, nat_abs, FitsSigned, IsTrue, MatchOption};
ghost use Rattle.std.specs.Int.{w16, w32, w64};
ghost use Rattle.cb_asm_line.specs.Numbers.{decimal, signed_decimal};

use itoa::Buffer;
use std::str;

/// The number that a word is in decimal, without a sign or a leading zero, or `None` where it is none below 2^64.
pub(crate) fn unsigned(word: &[u8]) -> Option<u64>
    ensures { MatchOption result ((number : ℕ) → number < 2 ^ 64 → word.now ≢ decimal number)
        (λ number. word.now ≡ decimal number) }
{
    match str::from_utf8(word) {
        Ok(text) => unsigned_text(text),
        Err(_) => None,
    }
}

/// The number below 2^16 that a word is in decimal.
pub(crate) fn small(word: &[u8]) -> Option<u16>
    ensures { MatchOption result ((number : ℕ) → number < 2 ^ 16 → word.now ≢ decimal number)
        (λ number. word.now ≡ decimal number) }
{
    match unsigned(word) {
        Some(number) if number < 0x1_0000 => Some(number as u16),
        Some(_) => None,
        None => None,
    }
}

/// The number below 2^8 that a word is in decimal.
pub(crate) fn byte(word: &[u8]) -> Option<u8>
    ensures { MatchOption result ((number : ℕ) → number < 2 ^ 8 → word.now ≢ decimal number)
        (λ number. word.now ≡ decimal number) }
{
    match unsigned(word) {
        Some(number) if number < 0x100 => Some(number as u8),
        Some(_) => None,
        None => None,
    }
}

/// The same for a text.
fn unsigned_text(text: &str) -> Option<u64>
    ensures { MatchOption result ((number : ℕ) → number < 2 ^ 64 → text.now ≢ decimal number)
        (λ number. text.now ≡ decimal number) }
{
    match text.parse::<u64>() {
        Ok(number) if is_decimal(text, number) => Some(number),
        Ok(_) => None,
        Err(_) => None,
    }
}

/// Whether a text is a number in decimal.
fn is_decimal(text: &str, number: u64) -> bool
    ensures { IsTrue result ↔ (text.now ≡ decimal number) }
{
    let mut buffer = Buffer::new();
    buffer.format(number) == text
}

/// The number that a word is in decimal, with `-` before the digits of a negative one, or `None` where it is none of 64
/// bits.
pub(crate) fn signed(word: &[u8]) -> Option<i64>
    ensures { MatchOption result ((number : ℤ) → FitsSigned w64 number → word.now ≢ signed_decimal number)
        (λ number. word.now ≡ signed_decimal number) }
{
    match word {
        [first, digits @ ..] if *first == b'-' => negative(digits),
        _ => positive(word),
    }
}

/// The same of 32 bits.
pub(crate) fn int(word: &[u8]) -> Option<i32>
    ensures { MatchOption result ((number : ℤ) → FitsSigned w32 number → word.now ≢ signed_decimal number)
        (λ number. word.now ≡ signed_decimal number) }
{
    match signed(word) {
        Some(number) if i64::from(i32::MIN) <= number && number <= i64::from(i32::MAX) => Some(
            number as i32,
        ),
        Some(_) => None,
        None => None,
    }
}

/// The same of 16 bits.
pub(crate) fn short(word: &[u8]) -> Option<i16>
    ensures { MatchOption result ((number : ℤ) → FitsSigned w16 number → word.now ≢ signed_decimal number)
        (λ number. word.now ≡ signed_decimal number) }
{
    match signed(word) {
        Some(number) if i64::from(i16::MIN) <= number && number <= i64::from(i16::MAX) => Some(
            number as i16,
        ),
        Some(_) => None,
        None => None,
    }
}

/// The negative number whose digits a word has.
fn negative(digits: &[u8]) -> Option<i64>
    ensures { MatchOption result ((below : ℕ) → below < 2 ^ 63 → digits.now ≢ decimal (below + 1))
        (λ number. (below : ℕ) × (number ≡ negsuc below) × (digits.now ≡ decimal (below + 1))) }
{
    match unsigned(digits) {
        Some(size) if 0 < size && size <= LEAST_SIZE => Some(below_zero((size - 1) as i64)),
        Some(_) => None,
        None => None,
    }
}

/// The number that is so far below -1.
fn below_zero(below: i64) -> i64
    requires { pos 0 ≤ℤ below }
    ensures { result ≡ negsuc (nat_abs below) }
{
    -1 - below
}

/// The number without a sign that a word is.
fn positive(word: &[u8]) -> Option<i64>
    ensures { MatchOption result ((number : ℕ) → number < 2 ^ 63 → word.now ≢ decimal number)
        (λ number. (size : ℕ) × (number ≡ pos size) × (word.now ≡ decimal size)) }
{
    match unsigned(word) {
        Some(number) if number < LEAST_SIZE => Some(number as i64),
        Some(_) => None,
        None => None,
    }
}

/// The least number of 64 bits without its sign.
const LEAST_SIZE: u64 = 1 << 63;
