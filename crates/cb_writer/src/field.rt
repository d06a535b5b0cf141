// Fields (JVMS §4.5).
ghost use Rattle.std.specs.Prelude.{◌≡◌, ◌↔◌, ◌++◌, IsTrue, OnOk, Some};
ghost use Rattle.cb_classfile.specs.Attributes.{attributes_bytes, one_attribute};
ghost use Rattle.cb_classfile.specs.Members.{SpellsValue};
ghost use Rattle.cb_classfile.specs.Tables.{u2};
ghost use Rattle.cb_writer.specs.Formed.{HasSpelling};
ghost use Rattle.cb_writer.specs.Names.{HasOnce, name_of};
ghost use Rattle.cb_writer.specs.declared.attribute_names.Attribute.TheVariants as attributes;

use crate::attribute_names::{Attribute, AttributeNames};
use crate::entry::Entry;
use crate::numbers::{push_triple, push_u2, push_u4};
use cb_classfile::{Field, is_value_of};
use cb_plain::OutOfMemory;

impl Entry for Field {
    ghost use Rattle.cb_classfile.specs.Members.{SpellsField, field_bytes};

    ghost spells = { SpellsField };

    ghost bytes_of = { field_bytes };

    fn is_formed(&self, names: &AttributeNames<'_>) -> bool {
        // Numbers that are read are known to fit their bytes.
        let _flags = self.flags.0;
        names.constants().names_field(self.name, self.descriptor)
            && may_have_constant(names, self.descriptor, self.constant)
    }

    fn push(&self, names: &AttributeNames<'_>, bytes: &mut Vec<u8>) -> Result<(), OutOfMemory> {
        push_triple(bytes, self.flags.0, self.name, self.descriptor)?;
        match self.constant {
            Some(index) => push_value(names, bytes, index),
            None => push_u2(bytes, 0),
        }
    }
}

/// Whether a field of the descriptor at an index may have this constant.
fn may_have_constant(names: &AttributeNames<'_>, descriptor: u16, constant: Option<u16>) -> bool
    ensures { IsTrue result ↔ HasOnce (SpellsValue names.now descriptor) names.now (name_of attributes.ConstantValue) constant }
{
    match constant {
        Some(index) => names.has(Attribute::ConstantValue) && is_value(names, descriptor, index),
        None => true,
    }
}

/// Whether the constant at an index may be the value of a field of the descriptor at another (JVMS §4.7.2).
fn is_value(names: &AttributeNames<'_>, descriptor: u16, index: u16) -> bool
    ensures { IsTrue result ↔ HasSpelling (SpellsValue names.now descriptor) index }
{
    match names.constant(index) {
        Some(constant) => is_value_of(&names.constants(), descriptor, constant),
        None => false,
    }
}

/// Writes the only attribute of a field, ConstantValue.
fn push_value(
    names: &AttributeNames<'_>,
    bytes: &mut Vec<u8>,
    index: u16,
) -> Result<(), OutOfMemory>
    ensures { OnOk result (bytes.new.items ≡ bytes.old.items
        ++ attributes_bytes (one_attribute names.now (name_of attributes.ConstantValue) (Some (u2 index)))) }
{
    push_u2(bytes, 1)?;
    push_u2(bytes, names.index(Attribute::ConstantValue))?;
    push_u4(bytes, 2)?;
    push_u2(bytes, index)
}
