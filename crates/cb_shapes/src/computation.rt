// What instructions compute from numbers alone.
ghost use Rattle.std.specs.Prelude.{◌≡◌};
ghost use Rattle.cb_shapes.specs.Computations.{gives, takes};

use crate::Sort;
use cb_arith::{IntOp, LongOp, Narrow, ShiftOp};

/// What an instruction computes from numbers alone (JVMS §6.5).
#[derive(Clone, Copy, Debug, Drop, Eq, PartialEq)]
pub enum Computation {
    /// `nop`
    Nothing,
    /// `iconst_m1` to `iconst_5`, `bipush`, `sipush`
    IntConstant(i32),
    /// `lconst_0`, `lconst_1`
    LongConstant(i64),
    /// `iadd` to `ixor`
    OfInts(IntOp),
    /// `ladd` to `lxor`
    OfLongs(LongOp),
    /// `lshl`, `lshr`, `lushr`
    ShiftLong(ShiftOp),
    /// `ineg`
    NegateInt,
    /// `lneg`
    NegateLong,
    /// `i2l`
    IntToLong,
    /// `l2i`
    LongToInt,
    /// `i2b`, `i2c`, `i2s`
    MakeNarrow(Narrow),
    /// `lcmp`
    CompareLongs,
}

impl Computation {
    /// The sorts of the numbers that it takes from the operand stack, the topmost first.
    pub fn takes(self) -> &'static [Sort]
        ensures { result.now ≡ takes self }
    {
        match self {
            Computation::Nothing | Computation::IntConstant(_) | Computation::LongConstant(_) =>
                &[],
            Computation::OfInts(_) => &[Sort::Int, Sort::Int],
            Computation::OfLongs(_) | Computation::CompareLongs => &[Sort::Long, Sort::Long],
            Computation::ShiftLong(_) => &[Sort::Int, Sort::Long],
            Computation::NegateInt | Computation::IntToLong | Computation::MakeNarrow(_) => &[
                Sort::Int,
            ],
            Computation::NegateLong | Computation::LongToInt => &[Sort::Long],
        }
    }

    /// The sort of the number that it gives, if it gives one.
    pub fn gives(self) -> Option<Sort>
        ensures { result ≡ gives self }
    {
        match self {
            Computation::Nothing => None,
            Computation::LongConstant(_)
            | Computation::OfLongs(_)
            | Computation::ShiftLong(_)
            | Computation::NegateLong
            | Computation::IntToLong => Some(Sort::Long),
            _ => Some(Sort::Int),
        }
    }
}
