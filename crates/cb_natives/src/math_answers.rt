// Natives of numbers alone (Java SE 8 API, java.lang.Math).
ghost use Rattle.std.specs.Prelude.{◌≡◌, ◌≢◌, ◌∷◌, [], ℕ, List, Ok, Option, map, pos, true};
ghost use Rattle.cb_heap.specs.Reading.{read_value};
ghost use Rattle.cb_library.specs.declared.native.Native.TheVariants as natives;
ghost use Rattle.cb_machine.specs.Answering.{floor_quotient};
ghost use Rattle.cb_plain.specs.State.{Object};
ghost use Rattle.cb_plain.specs.declared.value.Value.TheVariants as values;
ghost use Rattle.cb_natives.specs.Answers.{Tells, gives_math};
ghost use Rattle.cb_natives.specs.Given.{have_sorts, sorts_of};

use crate::arguments::{int, ints, long, longs};
use crate::wrapping::{int_abs, int_rest, long_abs, long_rest, low_int, low_long};
use crate::{Answer, Thrown};
use cb_library::Native;
use cb_plain::Value;

/// What a native of numbers gives.
pub(crate) fn math_answer(native: Native, arguments: &[Value]) -> Result<Answer, Thrown>
    requires gives { gives_math native ≡ true }
    requires sorts { have_sorts (sorts_of native) arguments.now ≡ true }
    ensures { (objects : List (Option Object)) (index : ℕ → ℕ)
        → Tells objects native (map (read_value index) arguments.now) result }
{
    match native {
        Native::MathAbsInt => Ok(int_size(int(arguments))),
        Native::MathAbsLong => Ok(long_size(long(arguments))),
        Native::MathMaxInt => {
            let (one, other) = ints(arguments);
            Ok(larger_int(one, other))
        }
        Native::MathMaxLong => {
            let (one, other) = longs(arguments);
            Ok(larger_long(one, other))
        }
        Native::MathMinInt => {
            let (one, other) = ints(arguments);
            Ok(smaller_int(one, other))
        }
        Native::MathMinLong => {
            let (one, other) = longs(arguments);
            Ok(smaller_long(one, other))
        }
        Native::MathFloorDivInt => {
            let (a, b) = ints(arguments);
            floor_div_int(a, b)
        }
        Native::MathFloorDivLong => {
            let (a, b) = longs(arguments);
            floor_div_long(a, b)
        }
        Native::MathFloorModInt => {
            let (a, b) = ints(arguments);
            floor_mod_int(a, b)
        }
        Native::MathFloorModLong => {
            let (a, b) = longs(arguments);
            floor_mod_long(a, b)
        }
        _ => unreachable!(),
    }
}

/// `abs` of an int: the least one's is itself.
fn int_size(number: i32) -> Answer
    ensures { (objects : List (Option Object)) → Tells objects natives.MathAbsInt (values.Int number ∷ []) (Ok result) }
{
    Answer::Int(int_abs(number))
}

/// `abs` of a long: the least one's is itself.
fn long_size(number: i64) -> Answer
    ensures { (objects : List (Option Object)) → Tells objects natives.MathAbsLong (values.Long number ∷ []) (Ok result) }
{
    Answer::Long(long_abs(number))
}

/// `max` of two ints.
fn larger_int(one: i32, other: i32) -> Answer
    ensures { (objects : List (Option Object)) → Tells objects natives.MathMaxInt (values.Int one ∷ values.Int other ∷ []) (Ok result) }
{
    Answer::Int(if one < other { other } else { one })
}

/// `max` of two longs.
fn larger_long(one: i64, other: i64) -> Answer
    ensures { (objects : List (Option Object)) → Tells objects natives.MathMaxLong (values.Long one ∷ values.Long other ∷ []) (Ok result) }
{
    Answer::Long(if one < other { other } else { one })
}

/// `min` of two ints.
fn smaller_int(one: i32, other: i32) -> Answer
    ensures { (objects : List (Option Object)) → Tells objects natives.MathMinInt (values.Int one ∷ values.Int other ∷ []) (Ok result) }
{
    Answer::Int(if other < one { other } else { one })
}

/// `min` of two longs.
fn smaller_long(one: i64, other: i64) -> Answer
    ensures { (objects : List (Option Object)) → Tells objects natives.MathMinLong (values.Long one ∷ values.Long other ∷ []) (Ok result) }
{
    Answer::Long(if other < one { other } else { one })
}

/// `floorDiv` of two ints.
fn floor_div_int(a: i32, b: i32) -> Result<Answer, Thrown>
    ensures { (objects : List (Option Object)) → Tells objects natives.MathFloorDivInt (values.Int a ∷ values.Int b ∷ []) result }
{
    if b == 0 {
        return Err(Thrown::ByZero);
    }
    Ok(Answer::Int(low_int(int_quotient(a, b))))
}

/// `floorMod` of two ints.
fn floor_mod_int(a: i32, b: i32) -> Result<Answer, Thrown>
    ensures { (objects : List (Option Object)) → Tells objects natives.MathFloorModInt (values.Int a ∷ values.Int b ∷ []) result }
{
    if b == 0 {
        return Err(Thrown::ByZero);
    }
    Ok(Answer::Int(int_rest(a, low_int(int_quotient(a, b)), b)))
}

/// `floorDiv` of two longs.
fn floor_div_long(a: i64, b: i64) -> Result<Answer, Thrown>
    ensures { (objects : List (Option Object)) → Tells objects natives.MathFloorDivLong (values.Long a ∷ values.Long b ∷ []) result }
{
    if b == 0 {
        return Err(Thrown::ByZero);
    }
    Ok(Answer::Long(low_long(long_quotient(a, b))))
}

/// `floorMod` of two longs.
fn floor_mod_long(a: i64, b: i64) -> Result<Answer, Thrown>
    ensures { (objects : List (Option Object)) → Tells objects natives.MathFloorModLong (values.Long a ∷ values.Long b ∷ []) result }
{
    if b == 0 {
        return Err(Thrown::ByZero);
    }
    Ok(Answer::Long(long_rest(a, low_long(long_quotient(a, b)), b)))
}

/// The quotient of two ints, rounded down.
fn int_quotient(a: i32, b: i32) -> i64
    requires { b ≢ pos 0 }
    ensures { result ≡ floor_quotient a b }
{
    let (a, b) = (i64::from(a), i64::from(b));
    if b < 0 {
        (-a).div_euclid(-b)
    } else {
        a.div_euclid(b)
    }
}

/// The quotient of two longs, rounded down.
fn long_quotient(a: i64, b: i64) -> i128
    requires { b ≢ pos 0 }
    ensures { result ≡ floor_quotient a b }
{
    let (a, b) = (i128::from(a), i128::from(b));
    if b < 0 {
        (-a).div_euclid(-b)
    } else {
        a.div_euclid(b)
    }
}
