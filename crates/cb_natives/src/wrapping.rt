// What is left of numbers in fewer bits, in two's complement.
ghost use Rattle.std.specs.Prelude.{◌≡◌, ◌*ℤ◌, ◌+ℤ◌, ◌-ℤ◌, ℤ, pos, unsigned_abs};
ghost use Rattle.std.specs.Int.{int_wrap, w32, w64};
ghost use Rattle.cb_arith.specs.Bits.{bits_xor};
ghost use Rattle.cb_arith.specs.Shifts.{long_shift};
ghost use Rattle.cb_arith.specs.declared.shift.ShiftOp.TheVariants as shifts;

use cb_arith::{LongOp, ShiftOp, long_op, long_shift};

/// The int that the low 32 bits of a long are.
pub(crate) fn low_int(number: i64) -> i32
    ensures { result ≡ int_wrap w32 number }
{
    let low = number.rem_euclid(1 << 32);
    (low as u32).cast_signed()
}

/// The long that the low 64 bits of a number are.
pub(crate) fn low_long(number: i128) -> i64
    ensures { result ≡ int_wrap w64 number }
{
    let low = number.rem_euclid(1 << 64);
    (low as u64).cast_signed()
}

/// The long that a word holds in two's complement.
pub(crate) fn long_in(word: u64) -> i64
    ensures { result ≡ int_wrap w64 (pos word) }
{
    word.cast_signed()
}

/// The int that is left of the size of an int.
pub(crate) fn int_abs(number: i32) -> i32
    ensures { result ≡ int_wrap w32 (pos (unsigned_abs number)) }
{
    number.wrapping_abs()
}

/// What is left of a product of ints.
pub(crate) fn int_product(one: i32, other: i32) -> i32
    ensures { result ≡ int_wrap w32 (one *ℤ other) }
{
    one.wrapping_mul(other)
}

/// What is left of a sum of ints.
pub(crate) fn int_sum(one: i32, other: i32) -> i32
    ensures { result ≡ int_wrap w32 (one +ℤ other) }
{
    one.wrapping_add(other)
}

/// What is left of a difference of ints.
pub(crate) fn int_less(one: i32, other: i32) -> i32
    ensures { result ≡ int_wrap w32 (one -ℤ other) }
{
    one.wrapping_sub(other)
}

/// What is left of an int less a product, of which one factor is what is left of any number.
pub(crate) fn int_rest(whole: i32, one: i32, other: i32) -> i32
    ensures { (number : ℤ) → one ≡ int_wrap w32 number → result ≡ int_wrap w32 (whole -ℤ number *ℤ other) }
{
    int_less(whole, int_product(one, other))
}

/// The long that is left of the size of a long.
pub(crate) fn long_abs(number: i64) -> i64
    ensures { result ≡ int_wrap w64 (pos (unsigned_abs number)) }
{
    number.wrapping_abs()
}

/// What is left of a product of longs.
fn long_product(one: i64, other: i64) -> i64
    ensures { result ≡ int_wrap w64 (one *ℤ other) }
{
    one.wrapping_mul(other)
}

/// What is left of a difference of longs.
pub(crate) fn long_less(one: i64, other: i64) -> i64
    ensures { result ≡ int_wrap w64 (one -ℤ other) }
{
    one.wrapping_sub(other)
}

/// What is left of a long less a product, of which one factor is what is left of any number.
pub(crate) fn long_rest(whole: i64, one: i64, other: i64) -> i64
    ensures { (number : ℤ) → one ≡ int_wrap w64 number → result ≡ int_wrap w64 (whole -ℤ number *ℤ other) }
{
    long_less(whole, long_product(one, other))
}

/// The hash of a long: its high and its low 32 bits, each of one alone.
pub(crate) fn long_hash(number: i64) -> i32
    ensures { result ≡ int_wrap w32 (bits_xor 64 number (long_shift shifts.Ushr number (pos 32))) }
{
    match long_op(LongOp::Xor, number, long_shift(ShiftOp::Ushr, number, 32)) {
        Some(bits) => low_int(bits),
        None => unreachable!(),
    }
}
