// Shifts of longs.
ghost use Rattle.std.specs.Prelude.{◌≡◌};
ghost use Rattle.cb_arith.specs.Shifts.{long_shift};

/// A shift of a long by an int.
#[derive(Clone, Copy, Debug, Drop, Eq, PartialEq)]
pub enum ShiftOp {
    /// `lshl`
    Shl,
    /// `lshr`
    Shr,
    /// `lushr`
    Ushr,
}

/// A long shifted as far as the low 6 bits of `by` say (JVMS §6.5).
#[inline(always)]
pub fn long_shift(op: ShiftOp, a: i64, by: i32) -> i64
    ensures exact { result ≡ long_shift op a by }
{
    let distance = by.cast_unsigned();
    match op {
        ShiftOp::Shl => a.wrapping_shl(distance),
        ShiftOp::Shr => a.wrapping_shr(distance),
        ShiftOp::Ushr => a.cast_unsigned().wrapping_shr(distance).cast_signed(),
    }
}
