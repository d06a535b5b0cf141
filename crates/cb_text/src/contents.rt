// A constant of numbers.
ghost use Rattle.std.specs.Prelude.{◌≢◌, ◌∷◌};
ghost use Rattle.cb_text.specs.Fronts.{Reads};
ghost use Rattle.cb_text.specs.Reading.{SpellsConstant};

use crate::Constant;
use crate::numbers::{u2_at, u4_at, u8_at};

/// The constant of a tag other than that of a text, from its contents at the front of the bytes, and what stands
/// behind it, or `None` where no such constant is a front of them.
pub(crate) fn numbers_of(tag: u8, bytes: &[u8]) -> Option<(Constant, &[u8])>
    requires { tag ≢ 1 }
    ensures { Reads SpellsConstant (tag ∷ bytes.now) result }
{
    match tag {
        3 => {
            let (number, rest) = u4_at(bytes)?;
            Some((Constant::Integer(number), rest))
        }
        4 => {
            let (bits, rest) = u4_at(bytes)?;
            Some((Constant::Float(bits), rest))
        }
        5 => {
            let (number, rest) = u8_at(bytes)?;
            Some((Constant::Long(number), rest))
        }
        6 => {
            let (bits, rest) = u8_at(bytes)?;
            Some((Constant::Double(bits), rest))
        }
        15 => {
            let (kind, rest) = bytes.split_first()?;
            let (reference, rest) = u2_at(rest)?;
            Some((Constant::MethodHandle(*kind, reference), rest))
        }
        _ => indices_of(tag, bytes),
    }
}

/// The constant of a tag whose contents are one or two indices, and what stands behind it.
fn indices_of(tag: u8, bytes: &[u8]) -> Option<(Constant, &[u8])>
    requires { (tag ≢ 1) × (tag ≢ 3) × (tag ≢ 4) × (tag ≢ 5) × (tag ≢ 6) × (tag ≢ 15) }
    ensures { Reads SpellsConstant (tag ∷ bytes.now) result }
{
    let (one, after) = u2_at(bytes)?;
    match tag {
        7 => Some((Constant::Class(one), after)),
        8 => Some((Constant::String(one), after)),
        16 => Some((Constant::MethodType(one), after)),
        _ => {
            let (other, rest) = u2_at(after)?;
            let constant = match tag {
                9 => Constant::Fieldref(one, other),
                10 => Constant::Methodref(one, other),
                11 => Constant::InterfaceMethodref(one, other),
                12 => Constant::NameAndType(one, other),
                18 => Constant::InvokeDynamic(one, other),
                _ => return None,
            };
            Some((constant, rest))
        }
    }
}
