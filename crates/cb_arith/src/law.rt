// What the definitions mean, in other words, and what they give.
ghost use Rattle.std.specs.Prelude.{◌≡◌, ◌≢◌, ◌<◌, ◌↔◌, ◌^◌, ◌+◌, ◌%◌, ◌+ℤ◌, ◌*ℤ◌, ℕ, ℤ, pos, neg_ℤ, min, max, IfSome, FitsSigned, int_div, int_rem, Some, None};
ghost use Rattle.std.specs.Int.{Width, w32, w64, int_wrap};
ghost use mir.Val.{bits};
ghost use Rattle.cb_arith.specs.Bits.{bit, bits_and, bits_or, bits_xor, floor_by_power, low_bits};
ghost use Rattle.cb_arith.specs.Ints.{int_op};
ghost use Rattle.cb_arith.specs.Laws.{IsCongruent, IsQuotient, IsRemainder, IsRoundedDown};
ghost use Rattle.cb_arith.specs.Longs.{long_op};
ghost use Rattle.cb_arith.specs.Narrowing.{narrow};
ghost use Rattle.cb_arith.specs.Order.{compare};
ghost use Rattle.cb_arith.specs.Shifts.{long_shift};
ghost use Rattle.cb_arith.specs.declared.int.IntOp.{IntOp};
ghost use Rattle.cb_arith.specs.declared.long.LongOp.{LongOp};
ghost use Rattle.cb_arith.specs.declared.narrower.Narrow.{Narrow};
ghost use Rattle.cb_arith.specs.declared.shift.ShiftOp.{ShiftOp};

/// What is left of a number in so many bits, in two's complement, is the one number in the range of these that has the same low
/// bits. The low bits alone are the one number below that power of 2 which has them.
pub fn wrapped_as_said()
    ensures signed { (width : Width) (number result : ℤ)
        → (result ≡ int_wrap width number) ↔ (FitsSigned width result × IsCongruent (bits width) result number) }
    ensures unsigned { (count : ℕ) (number : ℤ) (result : ℕ)
        → (result ≡ low_bits count number) ↔ ((result < 2 ^ count) × IsCongruent count (pos result) number) }
{}

/// A quotient is rounded toward zero, and its remainder has the sign of what is divided (JVMS §6.5, idiv and irem). The quotient
/// times the divisor and the remainder are together what was divided, also where the quotient doesn't fit.
pub fn divided_as_said()
    ensures quotient { (a b : ℤ) → b ≢ pos 0 → IsQuotient a b (int_div a b) }
    ensures remainder { (a b : ℤ) → b ≢ pos 0 → IsRemainder a b (int_div a b) (int_rem a b) }
    ensures together { (width : Width) (a b : ℤ) → FitsSigned width a
        → int_wrap width (int_wrap width (int_div a b) *ℤ b +ℤ int_wrap width (int_rem a b)) ≡ a }
{}

/// A quotient by a power of 2 is rounded down, also of a negative number (JVMS §6.5, ishr).
pub fn shifted_as_said()
    ensures { (number : ℤ) (times : ℕ) → IsRoundedDown number (pos (2 ^ times)) (floor_by_power number times) }
{}

/// Each bit is the one of both, of either, or of one alone. What is left of a number in so many bits has its low bits, and what
/// fits in them has no others.
pub fn bits_as_said()
    ensures both { (width : Width) (a b : ℤ) (place : ℕ) → place < bits width
        → bit place (bits_and (bits width) a b) ≡ min (bit place a) (bit place b) }
    ensures either { (width : Width) (a b : ℤ) (place : ℕ) → place < bits width
        → bit place (bits_or (bits width) a b) ≡ max (bit place a) (bit place b) }
    ensures one_alone { (width : Width) (a b : ℤ) (place : ℕ) → place < bits width
        → bit place (bits_xor (bits width) a b) ≡ (bit place a + bit place b) % 2 }
    ensures kept { (width : Width) (number : ℤ) (place : ℕ) → place < bits width
        → bit place (int_wrap width number) ≡ bit place number }
    ensures no_others { (width : Width) (a b : ℤ) → FitsSigned width a → FitsSigned width b
        → ((place : ℕ) → place < bits width → bit place a ≡ bit place b) → a ≡ b }
{}

/// Whatever the operands are, a result is an int or a long.
pub fn results_fit()
    ensures ints { (op : IntOp) (a b : ℤ) → IfSome (int_op op a b) (FitsSigned w32) }
    ensures longs { (op : LongOp) (a b : ℤ) → IfSome (long_op op a b) (FitsSigned w64) }
    ensures shifts { (op : ShiftOp) (a by : ℤ) → FitsSigned w64 (long_shift op a by) }
    ensures comparisons { (a b : ℤ) → FitsSigned w32 (compare a b) }
    ensures narrower { (to : Narrow) (a : ℤ) → FitsSigned w32 (narrow to a) }
{}
