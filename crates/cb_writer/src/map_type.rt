// Verification types in frames (JVMS §4.7.4).
ghost use Rattle.std.specs.Prelude.{◌≡◌, ◌∷◌, ◌++◌, OnOk};
ghost use Rattle.cb_classfile.specs.Tables.{u2};

use crate::attribute_names::AttributeNames;
use crate::entry::Entry;
use crate::numbers::{push_u1, push_u2};
use cb_classfile::MapType;
use cb_plain::OutOfMemory;

impl Entry for MapType {
    ghost use Rattle.cb_classfile.specs.FrameMap.{SpellsType, type_bytes};

    ghost spells = { SpellsType };

    ghost bytes_of = { λ pool. type_bytes };

    fn is_formed(&self, names: &AttributeNames<'_>) -> bool {
        match self {
            MapType::Object(class) => names.is_class(*class),
            MapType::Uninitialized(place) => {
                // Numbers that are read are known to fit their bytes.
                let _place = *place;
                true
            }
            _ => true,
        }
    }

    fn push(&self, _: &AttributeNames<'_>, bytes: &mut Vec<u8>) -> Result<(), OutOfMemory> {
        match self {
            MapType::Top => push_u1(bytes, 0),
            MapType::Integer => push_u1(bytes, 1),
            MapType::Float => push_u1(bytes, 2),
            MapType::Double => push_u1(bytes, 3),
            MapType::Long => push_u1(bytes, 4),
            MapType::Null => push_u1(bytes, 5),
            MapType::UninitializedThis => push_u1(bytes, 6),
            MapType::Object(class) => push_tagged(bytes, 7, *class),
            MapType::Uninitialized(place) => push_tagged(bytes, 8, *place),
        }
    }
}

/// Writes a tag and the number behind it.
fn push_tagged(bytes: &mut Vec<u8>, tag: u8, number: u16) -> Result<(), OutOfMemory>
    ensures { OnOk result (bytes.new.items ≡ bytes.old.items ++ tag ∷ u2 number) }
{
    push_u1(bytes, tag)?;
    push_u2(bytes, number)
}
