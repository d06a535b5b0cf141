// Instructions that compute from numbers: each does to the stack of the topmost frame what a computation does, and says whether it has, as a
// division by zero changes nothing (JVMS §6.5).
ghost use Rattle.std.specs.Prelude.{◌≡◌, ◌<◌, false, is_some, true, Some};
ghost use Rattle.std.specs.Int.{int_wrap, w32};
ghost use Rattle.cb_frames.specs.Tops.{top_room, top_stack};
ghost use Rattle.cb_shapes.specs.declared.computation.Computation.TheVariants as computations;
ghost use Rattle.cb_act.specs.Effects.{behind_computation, computed_on, gave};

use crate::operands::{give_for_one, give_for_two, int_at, long_at};
use cb_arith::{IntOp, LongOp, Narrow, ShiftOp, compare, int_op, long_op, long_shift, narrow};
use cb_frames::Roots;
use cb_plain::Value;

/// An operation on two ints.
#[inline(always)]
pub(crate) fn of_ints(roots: &mut Roots, op: IntOp) -> bool
    requires there { is_some (computed_on (computations.OfInts op) (top_stack roots.old.roots))
        ≡ true }
    ensures behind { behind_computation (computations.OfInts op) roots.old.roots
        ≡ Some roots.new.roots }
    ensures same { result ≡ false → roots.new ≡ roots.old }
    ensures limit { roots.new.limit ≡ roots.old.limit }
    ensures gave { gave (computations.OfInts op) roots.old.roots ≡ Some result }
{
    let b = int_at(roots, 0);
    let a = int_at(roots, 1);
    match int_op(op, a, b) {
        Some(number) => {
            give_for_two(roots, Value::Int(number));
            true
        }
        None => false,
    }
}

/// An operation on two longs.
#[inline(always)]
pub(crate) fn of_longs(roots: &mut Roots, op: LongOp) -> bool
    requires there { is_some (computed_on (computations.OfLongs op) (top_stack roots.old.roots))
        ≡ true }
    ensures behind { behind_computation (computations.OfLongs op) roots.old.roots
        ≡ Some roots.new.roots }
    ensures same { result ≡ false → roots.new ≡ roots.old }
    ensures limit { roots.new.limit ≡ roots.old.limit }
    ensures gave { gave (computations.OfLongs op) roots.old.roots ≡ Some result }
{
    let b = long_at(roots, 0);
    let a = long_at(roots, 1);
    match long_op(op, a, b) {
        Some(number) => {
            give_for_two(roots, Value::Long(number));
            true
        }
        None => false,
    }
}

/// A shift of a long.
#[inline(always)]
pub(crate) fn shift_long(roots: &mut Roots, op: ShiftOp) -> bool
    requires there { is_some (computed_on (computations.ShiftLong op) (top_stack roots.old.roots))
        ≡ true }
    ensures behind { behind_computation (computations.ShiftLong op) roots.old.roots
        ≡ Some roots.new.roots }
    ensures same { result ≡ false → roots.new ≡ roots.old }
    ensures limit { roots.new.limit ≡ roots.old.limit }
    ensures gave { gave (computations.ShiftLong op) roots.old.roots ≡ Some result }
{
    let by = int_at(roots, 0);
    let a = long_at(roots, 1);
    give_for_two(roots, Value::Long(long_shift(op, a, by)));
    true
}

/// `lcmp`
#[inline(always)]
pub(crate) fn compare_longs(roots: &mut Roots) -> bool
    requires there { is_some (computed_on computations.CompareLongs (top_stack roots.old.roots))
        ≡ true }
    ensures behind { behind_computation computations.CompareLongs roots.old.roots
        ≡ Some roots.new.roots }
    ensures same { result ≡ false → roots.new ≡ roots.old }
    ensures limit { roots.new.limit ≡ roots.old.limit }
    ensures gave { gave computations.CompareLongs roots.old.roots ≡ Some result }
{
    let b = long_at(roots, 0);
    let a = long_at(roots, 1);
    give_for_two(roots, Value::Int(compare(a, b)));
    true
}

/// `ineg`
#[inline(always)]
pub(crate) fn negate_int(roots: &mut Roots) -> bool
    requires there { is_some (computed_on computations.NegateInt (top_stack roots.old.roots))
        ≡ true }
    ensures behind { behind_computation computations.NegateInt roots.old.roots
        ≡ Some roots.new.roots }
    ensures same { result ≡ false → roots.new ≡ roots.old }
    ensures limit { roots.new.limit ≡ roots.old.limit }
    ensures gave { gave computations.NegateInt roots.old.roots ≡ Some result }
{
    let a = int_at(roots, 0);
    match int_op(IntOp::Sub, 0, a) {
        Some(number) => {
            give_for_one(roots, Value::Int(number));
            true
        }
        None => false,
    }
}

/// `lneg`
#[inline(always)]
pub(crate) fn negate_long(roots: &mut Roots) -> bool
    requires there { is_some (computed_on computations.NegateLong (top_stack roots.old.roots))
        ≡ true }
    ensures behind { behind_computation computations.NegateLong roots.old.roots
        ≡ Some roots.new.roots }
    ensures same { result ≡ false → roots.new ≡ roots.old }
    ensures limit { roots.new.limit ≡ roots.old.limit }
    ensures gave { gave computations.NegateLong roots.old.roots ≡ Some result }
{
    let a = long_at(roots, 0);
    match long_op(LongOp::Sub, 0, a) {
        Some(number) => {
            give_for_one(roots, Value::Long(number));
            true
        }
        None => false,
    }
}

/// `i2l`
#[inline(always)]
pub(crate) fn int_to_long(roots: &mut Roots) -> bool
    requires there { is_some (computed_on computations.IntToLong (top_stack roots.old.roots))
        ≡ true }
    ensures behind { behind_computation computations.IntToLong roots.old.roots
        ≡ Some roots.new.roots }
    ensures same { result ≡ false → roots.new ≡ roots.old }
    ensures limit { roots.new.limit ≡ roots.old.limit }
    ensures gave { gave computations.IntToLong roots.old.roots ≡ Some result }
{
    let a = int_at(roots, 0);
    give_for_one(roots, Value::Long(i64::from(a)));
    true
}

/// `l2i`
#[inline(always)]
pub(crate) fn long_to_int(roots: &mut Roots) -> bool
    requires there { is_some (computed_on computations.LongToInt (top_stack roots.old.roots))
        ≡ true }
    ensures behind { behind_computation computations.LongToInt roots.old.roots
        ≡ Some roots.new.roots }
    ensures same { result ≡ false → roots.new ≡ roots.old }
    ensures limit { roots.new.limit ≡ roots.old.limit }
    ensures gave { gave computations.LongToInt roots.old.roots ≡ Some result }
{
    let a = long_at(roots, 0);
    give_for_one(roots, Value::Int(low_int(a)));
    true
}

/// `i2b`, `i2c`, `i2s`
#[inline(always)]
pub(crate) fn make_narrow(roots: &mut Roots, to: Narrow) -> bool
    requires there { is_some (computed_on (computations.MakeNarrow to) (top_stack roots.old.roots))
        ≡ true }
    ensures behind { behind_computation (computations.MakeNarrow to) roots.old.roots
        ≡ Some roots.new.roots }
    ensures same { result ≡ false → roots.new ≡ roots.old }
    ensures limit { roots.new.limit ≡ roots.old.limit }
    ensures gave { gave (computations.MakeNarrow to) roots.old.roots ≡ Some result }
{
    let a = int_at(roots, 0);
    give_for_one(roots, Value::Int(narrow(to, a)));
    true
}

/// `iconst_m1` to `sipush`
#[inline(always)]
pub(crate) fn int_constant(roots: &mut Roots, number: i32) -> bool
    requires there { is_some (computed_on (computations.IntConstant number)
        (top_stack roots.old.roots)) ≡ true }
    requires room { 0 < top_room roots.old.roots }
    ensures behind { behind_computation (computations.IntConstant number) roots.old.roots
        ≡ Some roots.new.roots }
    ensures same { result ≡ false → roots.new ≡ roots.old }
    ensures limit { roots.new.limit ≡ roots.old.limit }
    ensures gave { gave (computations.IntConstant number) roots.old.roots ≡ Some result }
{
    roots.push(Value::Int(number));
    true
}

/// `lconst_0`, `lconst_1`
#[inline(always)]
pub(crate) fn long_constant(roots: &mut Roots, number: i64) -> bool
    requires there { is_some (computed_on (computations.LongConstant number)
        (top_stack roots.old.roots)) ≡ true }
    requires room { 0 < top_room roots.old.roots }
    ensures behind { behind_computation (computations.LongConstant number) roots.old.roots
        ≡ Some roots.new.roots }
    ensures same { result ≡ false → roots.new ≡ roots.old }
    ensures limit { roots.new.limit ≡ roots.old.limit }
    ensures gave { gave (computations.LongConstant number) roots.old.roots ≡ Some result }
{
    roots.push(Value::Long(number));
    true
}

/// The int that the low 32 bits of a long are.
#[inline(always)]
fn low_int(a: i64) -> i32
    ensures { result ≡ int_wrap w32 a }
{
    let low = a.rem_euclid(1 << 32);
    (low as u32).cast_signed()
}
