// Operations on two ints.
ghost use Rattle.std.specs.Prelude.{◌≡◌, ◌↔◌, pos, IsNone, IsTrue};
ghost use Rattle.cb_arith.specs.Ints.{int_divides, int_op};

/// An operation on two ints.
#[derive(Clone, Copy, Debug, Drop, Eq, PartialEq)]
pub enum IntOp {
    /// `iadd`
    Add,
    /// `isub`
    Sub,
    /// `imul`
    Mul,
    /// `idiv`
    Div,
    /// `irem`
    Rem,
    /// `ishl`
    Shl,
    /// `ishr`
    Shr,
    /// `iushr`
    Ushr,
    /// `iand`
    And,
    /// `ior`
    Or,
    /// `ixor`
    Xor,
}

/// What an operation gives for two ints, the left one first, or `None` where it would divide by zero (JVMS §6.5).
///
/// The least int divided by -1 is itself, with the remainder 0. A shift goes as far as the low 5 bits of `b` say.
#[inline(always)]
pub fn int_op(op: IntOp, a: i32, b: i32) -> Option<i32>
    ensures exact { result ≡ int_op op a b }
    ensures none { IsNone result ↔ (IsTrue (int_divides op) × (b ≡ pos 0)) }
{
    match op {
        IntOp::Add => Some(a.wrapping_add(b)),
        IntOp::Sub => Some(a.wrapping_sub(b)),
        IntOp::Mul => Some(a.wrapping_mul(b)),
        IntOp::Div if b == 0 => None,
        IntOp::Div => Some(a.wrapping_div(b)),
        IntOp::Rem if b == 0 => None,
        IntOp::Rem => Some(a.wrapping_rem(b)),
        IntOp::Shl => Some(a.wrapping_shl(b.cast_unsigned())),
        IntOp::Shr => Some(a.wrapping_shr(b.cast_unsigned())),
        IntOp::Ushr => {
            let bits = a.cast_unsigned().wrapping_shr(b.cast_unsigned());
            Some(bits.cast_signed())
        }
        IntOp::And => Some(a & b),
        IntOp::Or => Some(a | b),
        IntOp::Xor => Some(a ^ b),
    }
}
