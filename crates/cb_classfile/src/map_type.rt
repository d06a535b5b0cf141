// Verification types in frames (JVMS §4.7.4).
ghost use Rattle.std.specs.Prelude.{◌≡◌};

use crate::constants::Constants;
use crate::fault::Fault;
use crate::numbers::{u1_at, u2_at};
use crate::table::Entry;
use cb_plain::List;
use std::alloc::Global;

/// A verification type as it stands in the file (JVMS §4.7.4).
#[derive(Clone, Copy, Debug, PartialEq, Eq)]
pub enum MapType {
    /// A local that may not be used.
    Top,
    /// `int`
    Integer,
    /// `float`
    Float,
    /// `double`
    Double,
    /// `long`
    Long,
    /// The type of `null`.
    Null,
    /// `this` in a constructor, before the call of another.
    UninitializedThis,
    /// The class or array type at an index of the constant pool.
    Object(u16),
    /// What the `new` at a place of the code has made.
    Uninitialized(u16),
}

/// The locals or the operand stack of a frame.
pub type MapTypes = List<MapType>;

impl Entry for MapType {
    ghost use Rattle.cb_classfile.specs.FrameMap.{SpellsType};

    ghost spells = { SpellsType };

    fn read<'a>(
        _: Global,
        constants: &Constants<'_>,
        bytes: &'a [u8],
    ) -> Result<(MapType, &'a [u8]), Fault> {
        let (tag, rest) = u1_at(bytes)?;
        match tag {
            0 => Ok((MapType::Top, rest)),
            1 => Ok((MapType::Integer, rest)),
            2 => Ok((MapType::Float, rest)),
            3 => Ok((MapType::Double, rest)),
            4 => Ok((MapType::Long, rest)),
            5 => Ok((MapType::Null, rest)),
            6 => Ok((MapType::UninitializedThis, rest)),
            7 => {
                let (class, rest) = u2_at(rest)?;
                match constants.class(class) {
                    Some(_) => Ok((MapType::Object(class), rest)),
                    None => Err(Fault::Malformed),
                }
            }
            8 => {
                let (place, rest) = u2_at(rest)?;
                Ok((MapType::Uninitialized(place), rest))
            }
            _ => Err(Fault::Malformed),
        }
    }
}
