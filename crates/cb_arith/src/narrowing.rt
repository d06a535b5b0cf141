// Ints made narrower.
ghost use Rattle.std.specs.Prelude.{◌≡◌};
ghost use Rattle.cb_arith.specs.Narrowing.{narrow};

use crate::narrower::Narrow;

/// The value that the low bits of an int have in a narrower type, as an int (JVMS §6.5).
#[inline(always)]
pub fn narrow(to: Narrow, a: i32) -> i32
    ensures exact { result ≡ narrow to a }
{
    let bits = a.cast_unsigned();
    match to {
        Narrow::Byte => i32::from(((bits & 0xff) as u8).cast_signed()),
        Narrow::Char => i32::from((bits & 0xffff) as u16),
        Narrow::Short => i32::from(((bits & 0xffff) as u16).cast_signed()),
    }
}
