// Results of the arithmetic, added up as `bench/arith/Arith.java` does on HotSpot.
use cb_arith::{
    IntOp, LongOp, Narrow, ShiftOp, bits_as_said, compare, divided_as_said, int_op, long_op,
    long_shift, narrow, narrower_and_compared, overflows, quotients, results_fit, shifted_as_said,
    shifts_and_bits, wrapped_as_said,
};
use cb_rows::Trouble;
use std::alloc::AllocError;

pub(crate) fn tell(told: &mut String, table: &str, row: &str) -> Result<(), Trouble> {
    match (table, row) {
        ("results", "all calls") => Ok(tell_sums(told)?),
        ("laws", "") => {
            call_laws();
            Ok(told.push_str("called")?)
        }
        _ => Err(Trouble::NotUnderstood),
    }
}

/// A call of two numbers, of which the second one may not count.
#[derive(Clone, Copy)]
enum Call {
    Int(IntOp),
    Long(LongOp),
    Shift(ShiftOp),
    Narrow(Narrow),
    Compare,
}

const INTS: [i64; 32] = [
    0,
    1,
    -1,
    2,
    -2,
    5,
    -5,
    7,
    -7,
    31,
    32,
    33,
    63,
    64,
    65,
    127,
    128,
    -128,
    -129,
    255,
    256,
    32767,
    32768,
    -32768,
    -32769,
    65535,
    65536,
    65537,
    2147483646,
    2147483647,
    -2147483647,
    -2147483648,
];

const LONGS: [i64; 26] = [
    0,
    1,
    -1,
    2,
    -2,
    7,
    -7,
    63,
    64,
    65,
    65536,
    -65537,
    2147483647,
    2147483648,
    -2147483648,
    -2147483649,
    4294967295,
    4294967296,
    4294967297,
    -4294967296,
    3037000500,
    -3037000500,
    9223372036854775806,
    9223372036854775807,
    -9223372036854775807,
    -9223372036854775808,
];

const PAIRS: u32 = 4000;

/// Stands for a division by zero.
const NOTHING: i64 = 0x5EED;

const CALLS: [Call; 26] = [
    Call::Int(IntOp::Add),
    Call::Int(IntOp::Sub),
    Call::Int(IntOp::Mul),
    Call::Int(IntOp::Div),
    Call::Int(IntOp::Rem),
    Call::Int(IntOp::Shl),
    Call::Int(IntOp::Shr),
    Call::Int(IntOp::Ushr),
    Call::Int(IntOp::And),
    Call::Int(IntOp::Or),
    Call::Int(IntOp::Xor),
    Call::Long(LongOp::Add),
    Call::Long(LongOp::Sub),
    Call::Long(LongOp::Mul),
    Call::Long(LongOp::Div),
    Call::Long(LongOp::Rem),
    Call::Long(LongOp::And),
    Call::Long(LongOp::Or),
    Call::Long(LongOp::Xor),
    Call::Shift(ShiftOp::Shl),
    Call::Shift(ShiftOp::Shr),
    Call::Shift(ShiftOp::Ushr),
    Call::Narrow(Narrow::Byte),
    Call::Narrow(Narrow::Char),
    Call::Narrow(Narrow::Short),
    Call::Compare,
];

/// An int, as it is.
fn int(number: i64) -> i32 {
    i32::try_from(number).unwrap_or(0)
}

fn result_of(call: Call, a: i64, b: i64) -> i64 {
    match call {
        Call::Int(op) => int_op(op, int(a), int(b)).map_or(NOTHING, i64::from),
        Call::Long(op) => long_op(op, a, b).unwrap_or(NOTHING),
        Call::Shift(op) => long_shift(op, a, int(b)),
        Call::Narrow(to) => i64::from(narrow(to, int(a))),
        Call::Compare => i64::from(compare(a, b)),
    }
}

fn more(sum: i64, next: i64) -> i64 {
    sum.wrapping_mul(31).wrapping_add(next)
}

/// Whether the first number is an int, and whether the second one is.
fn are_ints(call: Call) -> (bool, bool) {
    match call {
        Call::Int(_) | Call::Narrow(_) => (true, true),
        Call::Shift(_) => (false, true),
        Call::Long(_) | Call::Compare => (false, false),
    }
}

fn listed(is_int: bool) -> &'static [i64] {
    if is_int {
        INTS.as_slice()
    } else {
        LONGS.as_slice()
    }
}

fn sum_of_row(call: Call, before: i64, a: i64) -> i64 {
    let mut sum = before;
    for b in listed(are_ints(call).1) {
        sum = more(sum, result_of(call, a, *b));
    }
    sum
}

fn listed_sum(call: Call) -> i64 {
    let mut sum = 0;
    for a in listed(are_ints(call).0) {
        sum = sum_of_row(call, sum, *a);
    }
    sum
}

/// The next number of the generator (Knuth, MMIX).
fn next(seed: u64) -> u64 {
    seed.wrapping_mul(6_364_136_223_846_793_005)
        .wrapping_add(1_442_695_040_888_963_407)
}

/// A number of few or of many bits.
fn number(is_int: bool, seed: u64) -> i64 {
    let bits = next(seed).cast_signed();
    if is_int {
        bits >> 32 >> (seed >> 59)
    } else {
        bits >> (seed >> 58)
    }
}

fn seeded_sum(call: Call) -> i64 {
    let (is_int, is_int_too) = are_ints(call);
    let mut sum = 0;
    let mut seed = 1;
    for _ in 0..PAIRS {
        let other = next(next(seed));
        sum = more(
            sum,
            result_of(call, number(is_int, seed), number(is_int_too, other)),
        );
        seed = next(next(other));
    }
    sum
}

/// Adds the name of a call.
fn push_name(told: &mut String, call: Call) -> Result<(), AllocError> {
    match call {
        Call::Int(op) => write!(told, "Int({op:?})"),
        Call::Long(op) => write!(told, "Long({op:?})"),
        Call::Shift(op) => write!(told, "Shift({op:?})"),
        Call::Narrow(to) => write!(told, "Narrow({to:?})"),
        Call::Compare => told.push_str("Compare"),
    }
}

/// Adds a call with the sum of its results over all pairs of the numbers above, and over seeded pairs.
fn push_sums(told: &mut String, call: Call) -> Result<(), AllocError> {
    push_name(told, call)?;
    write!(told, " {} {}", listed_sum(call), seeded_sum(call))
}

/// Adds the sums of each call.
fn tell_sums(told: &mut String) -> Result<(), AllocError> {
    for call in CALLS {
        told.push('\n')?;
        push_sums(told, call)?;
    }
    Ok(())
}

/// Calls the laws.
fn call_laws() {
    wrapped_as_said();
    divided_as_said();
    shifted_as_said();
    bits_as_said();
    results_fit();
    overflows();
    quotients();
    shifts_and_bits();
    narrower_and_compared();
}
