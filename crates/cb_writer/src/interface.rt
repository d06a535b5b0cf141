// The direct superinterfaces (JVMS §4.1).
ghost use Rattle.std.specs.Prelude.{◌≡◌};

use crate::attribute_names::AttributeNames;
use crate::entry::Entry;
use crate::numbers::push_u2;
use cb_plain::OutOfMemory;

/// The index of an interface.
impl Entry for u32 {
    ghost use Rattle.cb_classfile.specs.Class.{SpellsInterface};
    ghost use Rattle.cb_classfile.specs.Tables.{u2};

    ghost spells = { SpellsInterface };

    ghost bytes_of = { λ pool. u2 };

    fn is_formed(&self, names: &AttributeNames<'_>) -> bool {
        match u16::try_from(*self) {
            Ok(index) => names.constants().is_class(index),
            Err(_) => false,
        }
    }

    fn push(&self, _: &AttributeNames<'_>, bytes: &mut Vec<u8>) -> Result<(), OutOfMemory> {
        push_u2(bytes, *self as u16)
    }
}
