// What the definitions give at single numbers, as the checker computes it.
ghost use Rattle.std.specs.Prelude.{◌≡◌, ℤ, pos, neg_ℤ, Some, None};
ghost use Rattle.cb_arith.specs.Ints.{int_op};
ghost use Rattle.cb_arith.specs.Longs.{long_op};
ghost use Rattle.cb_arith.specs.Narrowing.{narrow};
ghost use Rattle.cb_arith.specs.Order.{compare};
ghost use Rattle.cb_arith.specs.Shifts.{long_shift};
ghost use Rattle.cb_arith.specs.declared.int.IntOp.TheVariants as int;
ghost use Rattle.cb_arith.specs.declared.long.LongOp.TheVariants as long;
ghost use Rattle.cb_arith.specs.declared.narrower.Narrow.TheVariants as narrower;
ghost use Rattle.cb_arith.specs.declared.shift.ShiftOp.TheVariants as shift;

/// Sums, differences and products that don't fit in 32 bits.
pub fn overflows()
    ensures sum { int_op int.Add i32.MAX (pos 1) ≡ Some i32.MIN }
    ensures difference { int_op int.Sub i32.MIN (pos 1) ≡ Some i32.MAX }
    ensures negation { int_op int.Sub (pos 0) i32.MIN ≡ Some i32.MIN }
    ensures product { int_op int.Mul (pos 65537) (pos 65537) ≡ Some (pos 131073) }
    ensures long_product { long_op long.Mul i64.MIN (neg_ℤ (pos 1)) ≡ Some i64.MIN }
{}

/// Quotients and remainders of negative numbers, and those that don't fit or aren't there.
pub fn quotients()
    ensures negative { int_op int.Div (neg_ℤ (pos 7)) (pos 2) ≡ Some (neg_ℤ (pos 3)) }
    ensures remainder { int_op int.Rem (neg_ℤ (pos 7)) (pos 2) ≡ Some (neg_ℤ (pos 1)) }
    ensures by_negative { int_op int.Div (pos 7) (neg_ℤ (pos 2)) ≡ Some (neg_ℤ (pos 3)) }
    ensures remainder_by_negative { int_op int.Rem (pos 7) (neg_ℤ (pos 2)) ≡ Some (pos 1) }
    ensures least { int_op int.Div i32.MIN (neg_ℤ (pos 1)) ≡ Some i32.MIN }
    ensures least_remainder { int_op int.Rem i32.MIN (neg_ℤ (pos 1)) ≡ Some (pos 0) }
    ensures by_zero { int_op int.Div (pos 7) (pos 0) ≡ None }
    ensures remainder_by_zero { long_op long.Rem (pos 7) (pos 0) ≡ None }
{}

/// Shifts, whose distances are low bits, and operations on bits.
pub fn shifts_and_bits()
    ensures left { int_op int.Shl (pos 3) (pos 31) ≡ Some i32.MIN }
    ensures left_again { int_op int.Shl (pos 3) (pos 33) ≡ Some (pos 6) }
    ensures left_back { int_op int.Shl (pos 3) (neg_ℤ (pos 1)) ≡ Some i32.MIN }
    ensures right { int_op int.Shr (neg_ℤ (pos 5)) (pos 1) ≡ Some (neg_ℤ (pos 3)) }
    ensures right_unsigned { int_op int.Ushr (neg_ℤ (pos 5)) (pos 28) ≡ Some (pos 15) }
    ensures right_not_at_all { int_op int.Ushr (neg_ℤ (pos 5)) (pos 32) ≡ Some (neg_ℤ (pos 5)) }
    ensures long_left { long_shift shift.Shl (pos 1) (pos 63) ≡ i64.MIN }
    ensures long_right { long_shift shift.Shr i64.MIN (neg_ℤ (pos 1)) ≡ neg_ℤ (pos 1) }
    ensures long_unsigned { long_shift shift.Ushr (neg_ℤ (pos 1)) (pos 127) ≡ pos 1 }
    ensures both { int_op int.And (neg_ℤ (pos 2)) (pos 7) ≡ Some (pos 6) }
    ensures either { int_op int.Or (neg_ℤ (pos 8)) (pos 3) ≡ Some (neg_ℤ (pos 5)) }
    ensures one_alone { long_op long.Xor (neg_ℤ (pos 1)) (pos 7) ≡ Some (neg_ℤ (pos 8)) }
{}

/// Ints made narrower, and longs compared.
pub fn narrower_and_compared()
    ensures byte { narrow narrower.Byte (pos 200) ≡ neg_ℤ (pos 56) }
    ensures char { narrow narrower.Char (neg_ℤ (pos 1)) ≡ pos 65535 }
    ensures short { narrow narrower.Short (pos 32768) ≡ neg_ℤ (pos 32768) }
    ensures less { compare i64.MIN i64.MAX ≡ neg_ℤ (pos 1) }
    ensures same { compare (neg_ℤ (pos 3)) (neg_ℤ (pos 3)) ≡ pos 0 }
    ensures greater { compare (neg_ℤ (pos 3)) (neg_ℤ (pos 4)) ≡ pos 1 }
{}
