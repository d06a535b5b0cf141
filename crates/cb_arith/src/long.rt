// Operations on two longs.
ghost use Rattle.std.specs.Prelude.{◌≡◌, ◌↔◌, pos, IsNone, IsTrue};
ghost use Rattle.cb_arith.specs.Longs.{long_divides, long_op};

/// An operation on two longs.
#[derive(Clone, Copy, Debug, Drop, Eq, PartialEq)]
pub enum LongOp {
    /// `ladd`
    Add,
    /// `lsub`
    Sub,
    /// `lmul`
    Mul,
    /// `ldiv`
    Div,
    /// `lrem`
    Rem,
    /// `land`
    And,
    /// `lor`
    Or,
    /// `lxor`
    Xor,
}

/// What an operation gives for two longs, the left one first, or `None` where it would divide by zero (JVMS §6.5).
///
/// The least long divided by -1 is itself, with the remainder 0.
#[inline(always)]
pub fn long_op(op: LongOp, a: i64, b: i64) -> Option<i64>
    ensures exact { result ≡ long_op op a b }
    ensures none { IsNone result ↔ (IsTrue (long_divides op) × (b ≡ pos 0)) }
{
    match op {
        LongOp::Add => Some(a.wrapping_add(b)),
        LongOp::Sub => Some(a.wrapping_sub(b)),
        LongOp::Mul => Some(a.wrapping_mul(b)),
        LongOp::Div if b == 0 => None,
        LongOp::Div => Some(a.wrapping_div(b)),
        LongOp::Rem if b == 0 => None,
        LongOp::Rem => Some(a.wrapping_rem(b)),
        LongOp::And => Some(a & b),
        LongOp::Or => Some(a | b),
        LongOp::Xor => Some(a ^ b),
    }
}
