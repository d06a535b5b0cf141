// Instructions that compute from numbers, and conversions.
ghost use Rattle.std.specs.Prelude.{◌≡◌};
ghost use Rattle.cb_shapes.specs.Math.{conversion, increase, math, of_ints, of_longs};

use crate::{Action, Computation};
use cb_arith::{IntOp, LongOp, Narrow, ShiftOp};
use cb_insn::{Operand, opcode};

/// What an instruction computes from ints (JVMS §6.5, iadd to ixor).
fn of_ints(code: u8) -> Option<Computation>
    ensures { result ≡ of_ints code }
{
    match code {
        opcode::IADD => Some(Computation::OfInts(IntOp::Add)),
        opcode::ISUB => Some(Computation::OfInts(IntOp::Sub)),
        opcode::IMUL => Some(Computation::OfInts(IntOp::Mul)),
        opcode::IDIV => Some(Computation::OfInts(IntOp::Div)),
        opcode::IREM => Some(Computation::OfInts(IntOp::Rem)),
        opcode::INEG => Some(Computation::NegateInt),
        opcode::ISHL => Some(Computation::OfInts(IntOp::Shl)),
        opcode::ISHR => Some(Computation::OfInts(IntOp::Shr)),
        opcode::IUSHR => Some(Computation::OfInts(IntOp::Ushr)),
        opcode::IAND => Some(Computation::OfInts(IntOp::And)),
        opcode::IOR => Some(Computation::OfInts(IntOp::Or)),
        opcode::IXOR => Some(Computation::OfInts(IntOp::Xor)),
        _ => None,
    }
}

/// What an instruction computes from longs (JVMS §6.5, ladd to lxor).
fn of_longs(code: u8) -> Option<Computation>
    ensures { result ≡ of_longs code }
{
    match code {
        opcode::LADD => Some(Computation::OfLongs(LongOp::Add)),
        opcode::LSUB => Some(Computation::OfLongs(LongOp::Sub)),
        opcode::LMUL => Some(Computation::OfLongs(LongOp::Mul)),
        opcode::LDIV => Some(Computation::OfLongs(LongOp::Div)),
        opcode::LREM => Some(Computation::OfLongs(LongOp::Rem)),
        opcode::LNEG => Some(Computation::NegateLong),
        opcode::LSHL => Some(Computation::ShiftLong(ShiftOp::Shl)),
        opcode::LSHR => Some(Computation::ShiftLong(ShiftOp::Shr)),
        opcode::LUSHR => Some(Computation::ShiftLong(ShiftOp::Ushr)),
        opcode::LAND => Some(Computation::OfLongs(LongOp::And)),
        opcode::LOR => Some(Computation::OfLongs(LongOp::Or)),
        opcode::LXOR => Some(Computation::OfLongs(LongOp::Xor)),
        _ => None,
    }
}

/// What a conversion or `lcmp` computes (JVMS §6.5, i2l to i2s).
pub(crate) fn conversion(code: u8) -> Option<Computation>
    ensures { result ≡ conversion code }
{
    match code {
        opcode::I2L => Some(Computation::IntToLong),
        opcode::L2I => Some(Computation::LongToInt),
        opcode::I2B => Some(Computation::MakeNarrow(Narrow::Byte)),
        opcode::I2C => Some(Computation::MakeNarrow(Narrow::Char)),
        opcode::I2S => Some(Computation::MakeNarrow(Narrow::Short)),
        opcode::LCMP => Some(Computation::CompareLongs),
        _ => None,
    }
}

/// What `iinc` does.
fn increase(operand: &Operand) -> Option<Action>
    ensures { result ≡ increase operand.now }
{
    match operand {
        Operand::Increase { local, by } => Some(Action::Increase {
            local: *local,
            by: *by,
        }),
        _ => None,
    }
}

/// What an instruction from `iadd` to `iinc` does.
pub(crate) fn math(code: u8, operand: &Operand) -> Option<Action>
    ensures { result ≡ math code operand.now }
{
    if code == opcode::IINC {
        increase(operand)
    } else {
        let computation = of_ints(code).or(of_longs(code))?;
        Some(Action::Compute(computation))
    }
}
