// Fields (JVMS §4.5).
ghost use Rattle.std.specs.Prelude.{ℕ, IsTrue, ◌↔◌, List as Items};
ghost use Rattle.cb_classfile.specs.Attributes.{IsTold, SpellsOnce};
ghost use Rattle.cb_classfile.specs.Members.{SpellsValue, IsValueOf, IsNarrow};
ghost use Rattle.cb_classfile.specs.Pool.{HasText};
ghost use Rattle.cb_classfile.specs.Reading.{ReadsWhole};

use crate::FieldFlags;
use crate::ascii::has_text;
use crate::attribute::Occurrence;
use crate::constants::Constants;
use crate::fault::Fault;
use crate::member::member_at;
use crate::numbers::u2_at;
use crate::table::Entry;
use cb_plain::List;
use cb_text::Constant;
use std::alloc::Global;

/// A field (JVMS §4.5). Its indices are those of the constant pool.
#[derive(Debug, Drop)]
pub struct Field {
    /// The access flags.
    pub flags: FieldFlags,
    /// The index of the name.
    pub name: u16,
    /// The index of the descriptor.
    pub descriptor: u16,
    /// The index of the value that its attribute `ConstantValue` names, if it has one (§4.7.2).
    pub constant: Option<u16>,
}

/// The fields of a class.
pub type Fields = List<Field>;

impl Entry for Field {
    ghost use Rattle.cb_classfile.specs.Members.{SpellsField};

    ghost spells = { SpellsField };

    fn read<'a>(
        _: Global,
        constants: &Constants<'_>,
        bytes: &'a [u8],
    ) -> Result<(Field, &'a [u8]), Fault> {
        let (member, rest) = member_at(constants, b"ConstantValue", bytes)?;
        if !constants.names_field(member.name, member.descriptor) {
            return Err(Fault::Malformed);
        }
        let constant = constant_of(constants, member.descriptor, member.occurrence)?;
        let field = Field {
            flags: FieldFlags(member.flags),
            name: member.name,
            descriptor: member.descriptor,
            constant,
        };
        Ok((field, rest))
    }
}

/// The index in the attribute `ConstantValue` of a field, if it has one.
fn constant_of(
    constants: &Constants<'_>,
    descriptor: u16,
    occurrence: Occurrence<'_>,
) -> Result<Option<u16>, Fault>
    ensures { (contents : Items (Items ℕ)) → IsTold occurrence.entry contents
        → ReadsWhole (SpellsOnce (SpellsValue constants.now descriptor)) contents result }
{
    match occurrence {
        Occurrence::Never => Ok(None),
        Occurrence::Once(contents) => Ok(Some(value_of(constants, descriptor, contents)?)),
        Occurrence::Again => Err(Fault::Malformed),
    }
}

/// The index in the contents of an attribute `ConstantValue`.
fn value_of(constants: &Constants<'_>, descriptor: u16, contents: &[u8]) -> Result<u16, Fault>
    ensures { ReadsWhole (SpellsValue constants.now descriptor) contents.now result }
{
    let (index, rest) = u2_at(contents)?;
    match (rest, constants.constant(index)) {
        ([], Some(constant)) if is_value_of(constants, descriptor, constant) => Ok(index),
        _ => Err(Fault::Malformed),
    }
}

/// Whether the constant may be the value of a field of the descriptor at an index (JVMS table 4.7.2-A).
pub fn is_value_of(constants: &Constants<'_>, descriptor: u16, constant: &Constant) -> bool
    ensures { IsTrue result ↔ HasText constants.now descriptor (λ text. IsValueOf text constant.now) }
{
    match constant {
        Constant::Long(_) => has_text(constants, descriptor, b"J"),
        Constant::Float(_) => has_text(constants, descriptor, b"F"),
        Constant::Double(_) => has_text(constants, descriptor, b"D"),
        Constant::Integer(_) => is_narrow(constants, descriptor),
        Constant::String(_) => has_text(constants, descriptor, b"Ljava/lang/String;"),
        _ => false,
    }
}

/// Whether the descriptor is that of a type whose values are ints.
fn is_narrow(constants: &Constants<'_>, descriptor: u16) -> bool
    ensures { IsTrue result ↔ HasText constants.now descriptor IsNarrow }
{
    has_text(constants, descriptor, b"I")
        || has_text(constants, descriptor, b"S")
        || has_text(constants, descriptor, b"C")
        || has_text(constants, descriptor, b"B")
        || has_text(constants, descriptor, b"Z")
}
