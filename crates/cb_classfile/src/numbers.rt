// The numbers of class files, which stand with their high bytes first (JVMS §4).
ghost use Rattle.cb_classfile.specs.Reading.{Reads, Tells};
ghost use Rattle.cb_classfile.specs.Tables.{SpellsBlock, SpellsPair, SpellsTriple, SpellsU1, SpellsU2, SpellsU4, TellsBytes};

use crate::fault::Fault;

/// The byte at the front, and what stands behind it.
pub(crate) fn u1_at(bytes: &[u8]) -> Result<(u8, &[u8]), Fault>
    ensures { Reads SpellsU1 bytes.now result }
{
    match bytes {
        [byte, rest @ ..] => Ok((*byte, rest)),
        _ => Err(Fault::Malformed),
    }
}

/// A number of two bytes at the front, and what stands behind it.
pub(crate) fn u2_at(bytes: &[u8]) -> Result<(u16, &[u8]), Fault>
    ensures { Reads SpellsU2 bytes.now result }
{
    match bytes {
        [one, two, rest @ ..] => Ok((u16::from_be_bytes([*one, *two]), rest)),
        _ => Err(Fault::Malformed),
    }
}

/// Two numbers of two bytes each at the front, and what stands behind them.
pub(crate) fn pair_at(bytes: &[u8]) -> Result<((u16, u16), &[u8]), Fault>
    ensures { Reads SpellsPair bytes.now result }
{
    match bytes {
        [a, b, c, d, rest @ ..] => {
            let one = u16::from_be_bytes([*a, *b]);
            let other = u16::from_be_bytes([*c, *d]);
            Ok(((one, other), rest))
        }
        _ => Err(Fault::Malformed),
    }
}

/// Three numbers of two bytes each at the front, and what stands behind them.
pub(crate) fn triple_at(bytes: &[u8]) -> Result<((u16, u16, u16), &[u8]), Fault>
    ensures { Reads SpellsTriple bytes.now result }
{
    match bytes {
        [a, b, c, d, e, f, rest @ ..] => {
            let one = u16::from_be_bytes([*a, *b]);
            let two = u16::from_be_bytes([*c, *d]);
            let three = u16::from_be_bytes([*e, *f]);
            Ok(((one, two, three), rest))
        }
        _ => Err(Fault::Malformed),
    }
}

/// A number of four bytes at the front, and what stands behind it.
pub(crate) fn u4_at(bytes: &[u8]) -> Result<(u32, &[u8]), Fault>
    ensures { Reads SpellsU4 bytes.now result }
{
    match bytes {
        [one, two, three, four, rest @ ..] => {
            Ok((u32::from_be_bytes([*one, *two, *three, *four]), rest))
        }
        _ => Err(Fault::Malformed),
    }
}

/// The bytes behind their number at the front, and what stands behind them.
pub(crate) fn block_at(bytes: &[u8]) -> Result<(&[u8], &[u8]), Fault>
    ensures { Tells SpellsBlock TellsBytes bytes.now result }
{
    let (length, rest) = u4_at(bytes)?;
    match rest.split_at_checked(length as usize) {
        Some((block, rest)) => Ok((block, rest)),
        None => Err(Fault::Malformed),
    }
}
