// Methods (JVMS §4.6).
ghost use Rattle.std.specs.Prelude.{◌≡◌, ◌↔◌, ◌++◌, ◌^◌, ◌<◌, IsTrue, OnOk, Some, length};
ghost use Rattle.cb_classfile.specs.Attributes.{attributes_bytes, one_attribute};
ghost use Rattle.cb_classfile.specs.Code.{SpellsBody, body_bytes};
ghost use Rattle.cb_writer.specs.Formed.{HasSpelling};
ghost use Rattle.cb_writer.specs.Names.{HasOnce, name_of};
ghost use Rattle.cb_writer.specs.declared.attribute_names.Attribute.TheVariants as attributes;

use crate::attribute_names::{Attribute, AttributeNames};
use crate::block::{begin_only_attribute, end_block};
use crate::body::push_body;
use crate::body_form::{TOO_LONG, body_size};
use crate::entry::Entry;
use crate::numbers::{push_triple, push_u2};
use cb_classfile::{Body, Method, is_method};
use cb_plain::OutOfMemory;

impl Entry for Method {
    ghost use Rattle.cb_classfile.specs.Members.{SpellsMethod, method_bytes};

    ghost spells = { SpellsMethod };

    ghost bytes_of = { method_bytes };

    fn is_formed(&self, names: &AttributeNames<'_>) -> bool {
        // Numbers that are read are known to fit their bytes.
        let _flags = self.flags.0;
        let constants = names.constants();
        constants.names_method(self.name, self.descriptor)
            && is_method(&constants, self)
            && may_have_body(names, self)
    }

    fn push(&self, names: &AttributeNames<'_>, bytes: &mut Vec<u8>) -> Result<(), OutOfMemory> {
        push_triple(bytes, self.flags.0, self.name, self.descriptor)?;
        match &self.body {
            Some(body) => push_code(names, bytes, body),
            None => push_u2(bytes, 0),
        }
    }
}

/// Whether a method may have its body, or none.
fn may_have_body(names: &AttributeNames<'_>, method: &Method) -> bool
    ensures { IsTrue result ↔ HasOnce (SpellsBody names.now) names.now (name_of attributes.Code) method.now.body }
{
    match &method.body {
        Some(body) => names.has(Attribute::Code) && is_short_body(names, body),
        None => true,
    }
}

/// Whether some bytes, so few that they are the contents of an attribute, spell a body.
fn is_short_body(names: &AttributeNames<'_>, body: &Body) -> bool
    ensures { IsTrue result ↔ (HasSpelling (SpellsBody names.now) body.now
        × (length (body_bytes names.now body.now) < 2 ^ 32)) }
{
    match body_size(names, body) {
        Some(size) => size < TOO_LONG,
        None => false,
    }
}

/// Writes the only attribute of a method, Code.
fn push_code(
    names: &AttributeNames<'_>,
    bytes: &mut Vec<u8>,
    body: &Body,
) -> Result<(), OutOfMemory>
    requires spelled { HasSpelling (SpellsBody names.now) body.now }
    requires short { length (body_bytes names.now body.now) < 2 ^ 32 }
    ensures { OnOk result (bytes.new.items ≡ bytes.old.items
        ++ attributes_bytes (one_attribute names.now (name_of attributes.Code) (Some (body_bytes names.now body.now)))) }
{
    let begin = begin_only_attribute(names, bytes, Attribute::Code)?;
    push_body(names, bytes, body)?;
    end_block(bytes, begin);
    Ok(())
}
