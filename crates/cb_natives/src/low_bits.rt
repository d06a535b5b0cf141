// The low bits of ints, and words that hold longs.
ghost use Rattle.std.specs.Prelude.{◌≡◌, pos};
ghost use Rattle.std.specs.Int.{int_wrap, w64};
ghost use Rattle.cb_arith.specs.Bits.{low_bits};
ghost use Rattle.cb_machine.specs.Texts.{unit_of};

use cb_arith::{Narrow, narrow};

/// The unit that the low 16 bits of an int are.
pub(crate) fn unit_of(number: i32) -> u16
    ensures { result ≡ unit_of number }
{
    narrow(Narrow::Char, number) as u16
}

/// The lowest bit of an int.
pub(crate) fn low_bit(number: i32) -> i32
    ensures { result ≡ pos (low_bits 1 number) }
{
    number & 1
}

/// The word that holds a long in two's complement.
pub(crate) fn word_of(number: i64) -> u64
    ensures { int_wrap w64 (pos result) ≡ number }
{
    number.cast_unsigned()
}
