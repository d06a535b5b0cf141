// Numbers in strings (Java SE 8 API, `Integer.parseInt` and `Long.parseLong`).
ghost use Rattle.std.specs.Prelude.{◌≡◌, ◌∷◌, [], ◌+◌, ◌*◌, ◌<◌, ◌≤◌, ◌^◌, IfSome, None, drop, length};
ghost use Rattle.std.specs.Int.{w32, w64};
ghost use Rattle.std.specs.Prelude.{option_and_then};
ghost use Rattle.cb_heap.specs.Reading.{serial_of};
ghost use Rattle.cb_library.specs.declared.native.Native.TheVariants as natives;
ghost use Rattle.cb_machine.specs.Answering.{digit_of, gives_long, gives_parsed, in_range, number_in, read_some};
ghost use Rattle.cb_machine.specs.Machine.{Machine};
ghost use Rattle.cb_machine.specs.Performing.{gives_int, on_text};
ghost use Rattle.cb_plain.specs.declared.value.Value.TheVariants as values;
ghost use Rattle.cb_natives.specs.Answers.{Beside, Tells, answered, call_on};
ghost use Rattle.cb_natives.specs.Given.{AText, HoldsUnits, IsReference, units_in};
ghost use Rattle.cb_natives.specs.Parsing.{SameInRange, at_most, with_sign};

use crate::reading::count;
use crate::scanning::unit_at;
use crate::string_reading::text_in;
use crate::{Answer, Exception, Thrown};
use cb_heap::Store;

/// No number of a greater size is in the range of a long.
const MOST: u64 = 1 << 63;

const PLUS: u16 = 43;

const MINUS: u16 = 45;

/// `parseInt`.
pub(crate) fn parse_int<S: Store>(store: &S, at: u64) -> Result<Answer, Thrown>
    requires { IsReference (S.storage store.now).kept AText (serial_of (S.storage store.now).index at) }
    ensures { Tells (S.storage store.now).kept natives.IntegerParseInt (values.Ref (serial_of (S.storage store.now).index at) ∷ []) result }
{
    if at == 0 {
        return Err(Thrown::Of(Exception::NumberFormat));
    }
    int_in_text(store, at)
}

/// The int that a string spells, or a NumberFormatException.
fn int_in_text<S: Store>(store: &S, at: u64) -> Result<Answer, Thrown>
    requires { IsReference (S.storage store.now).kept AText (serial_of (S.storage store.now).index at) }
    ensures { (machine : Machine) (beside : Beside) → on_text (call_on machine (S.storage store.now).kept beside) (serial_of (S.storage store.now).index at) (λ units. gives_parsed (call_on machine (S.storage store.now).kept beside) (gives_int (call_on machine (S.storage store.now).kept beside)) (option_and_then (in_range w32) (number_in units)))
        ≡ answered (call_on machine (S.storage store.now).kept beside) result }
{
    let array = text_in(store, at)?;
    match int_in_units(store, array) {
        Some(number) => Ok(Answer::Int(number)),
        None => Err(Thrown::Of(Exception::NumberFormat)),
    }
}

/// `parseLong`.
pub(crate) fn parse_long<S: Store>(store: &S, at: u64) -> Result<Answer, Thrown>
    requires { IsReference (S.storage store.now).kept AText (serial_of (S.storage store.now).index at) }
    ensures { Tells (S.storage store.now).kept natives.LongParseLong (values.Ref (serial_of (S.storage store.now).index at) ∷ []) result }
{
    if at == 0 {
        return Err(Thrown::Of(Exception::NumberFormat));
    }
    long_in_text(store, at)
}

/// The long that a string spells, or a NumberFormatException.
fn long_in_text<S: Store>(store: &S, at: u64) -> Result<Answer, Thrown>
    requires { IsReference (S.storage store.now).kept AText (serial_of (S.storage store.now).index at) }
    ensures { (machine : Machine) (beside : Beside) → on_text (call_on machine (S.storage store.now).kept beside) (serial_of (S.storage store.now).index at) (λ units. gives_parsed (call_on machine (S.storage store.now).kept beside) (gives_long (call_on machine (S.storage store.now).kept beside)) (option_and_then (in_range w64) (number_in units)))
        ≡ answered (call_on machine (S.storage store.now).kept beside) result }
{
    let array = text_in(store, at)?;
    match long_in_units(store, array) {
        Some(number) => Ok(Answer::Long(number)),
        None => Err(Thrown::Of(Exception::NumberFormat)),
    }
}

/// The int that an array of chars spells.
fn int_in_units<S: Store>(store: &S, array: u64) -> Option<i32>
    requires { HoldsUnits (S.storage store.now).kept (serial_of (S.storage store.now).index array) }
    ensures { result ≡ option_and_then (in_range w32) (number_in (units_in (S.storage store.now).kept (serial_of (S.storage store.now).index array))) }
{
    match number_in_units(store, array) {
        Some(number) => int_within(number),
        None => None,
    }
}

/// The long that an array of chars spells.
fn long_in_units<S: Store>(store: &S, array: u64) -> Option<i64>
    requires { HoldsUnits (S.storage store.now).kept (serial_of (S.storage store.now).index array) }
    ensures { result ≡ option_and_then (in_range w64) (number_in (units_in (S.storage store.now).kept (serial_of (S.storage store.now).index array))) }
{
    match number_in_units(store, array) {
        Some(number) => long_within(number),
        None => None,
    }
}

/// A number as an int, if it is one.
#[tactic(auto, using(crate::proofs::NumberLaws::in_range_fits, crate::proofs::NumberLaws::in_range_not))]
fn int_within(number: i128) -> Option<i32>
    ensures { result ≡ in_range w32 number }
{
    i32::try_from(number).ok()
}

/// A number as a long, if it is one.
#[tactic(auto, using(crate::proofs::NumberLaws::in_range_fits, crate::proofs::NumberLaws::in_range_not))]
fn long_within(number: i128) -> Option<i64>
    ensures { result ≡ in_range w64 number }
{
    i64::try_from(number).ok()
}

/// The number that a string spells, or none where it spells none or one that is neither an int nor a long. Linear in its units.
fn number_in_units<S: Store>(store: &S, array: u64) -> Option<i128>
    requires { HoldsUnits (S.storage store.now).kept (serial_of (S.storage store.now).index array) }
    ensures { SameInRange (number_in (units_in (S.storage store.now).kept (serial_of (S.storage store.now).index array))) result }
{
    if count(store, array) == 0 {
        return None;
    }
    let first = unit_at(store, array, 0);
    if first == MINUS {
        return signed(true, size_at(store, array, 1));
    }
    if first == PLUS {
        return signed(false, size_at(store, array, 1));
    }
    signed(false, size_at(store, array, 0))
}

/// A size with its sign.
fn signed(minus: bool, size: Option<u64>) -> Option<i128>
    ensures { result ≡ with_sign minus size }
{
    match size {
        Some(size) if minus => Some(-i128::from(size)),
        Some(size) => Some(i128::from(size)),
        None => None,
    }
}

/// The number that the digits of a string spell from a place on, or none where it is more than 2 to the 63, or where there is no digit or
/// another unit.
fn size_at<S: Store>(store: &S, array: u64, start: u32) -> Option<u64>
    requires units { HoldsUnits (S.storage store.now).kept (serial_of (S.storage store.now).index array) }
    requires low { start ≤ length (units_in (S.storage store.now).kept (serial_of (S.storage store.now).index array)) }
    ensures { result ≡ at_most (read_some (drop start (units_in (S.storage store.now).kept (serial_of (S.storage store.now).index array)))) }
{
    if start < count(store, array) {
        digits_at(store, array, start)
    } else {
        None
    }
}

/// The number that the digits of a string spell from one of its units on, or none where it is more than 2 to the 63 or there is another
/// unit.
fn digits_at<S: Store>(store: &S, array: u64, start: u32) -> Option<u64>
    requires units { HoldsUnits (S.storage store.now).kept (serial_of (S.storage store.now).index array) }
    requires low { start < length (units_in (S.storage store.now).kept (serial_of (S.storage store.now).index array)) }
    ensures { result ≡ at_most (read_some (drop start (units_in (S.storage store.now).kept (serial_of (S.storage store.now).index array)))) }
{
    let mut sum = 0;
    for place in start..count(store, array) {
        let digit = digit_of(unit_at(store, array, place))?;
        match with_digit(sum, digit) {
            Some(more) => sum = more,
            None => return None,
        }
    }
    Some(sum)
}

/// The value of a digit.
fn digit_of(unit: u16) -> Option<u64>
    ensures value { result ≡ digit_of unit }
    ensures few { IfSome result (λ digit. digit < 10) }
{
    if 48 <= unit && unit < 58 {
        Some(u64::from(unit - 48))
    } else {
        None
    }
}

/// A number with one more digit, or none where that is more than 2 to the 63.
fn with_digit(sum: u64, digit: u64) -> Option<u64>
    requires sum { sum ≤ 2 ^ 63 }
    requires digit { digit < 10 }
    ensures within { IfSome result (λ more. (more ≡ sum * 10 + digit) × (more ≤ 2 ^ 63)) }
    ensures beyond { result ≡ None → 2 ^ 63 < sum * 10 + digit }
{
    let more = u128::from(sum) * 10 + u128::from(digit);
    if more <= u128::from(MOST) {
        Some(more as u64)
    } else {
        None
    }
}
