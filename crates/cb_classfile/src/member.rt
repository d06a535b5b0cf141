// What fields and methods have alike (JVMS §4.5, §4.6).
ghost use Rattle.cb_classfile.specs.Members.{SpellsMember, TellsMember};
ghost use Rattle.cb_classfile.specs.Reading.{Tells};

use crate::attribute::{Occurrence, attributes_named};
use crate::constants::Constants;
use crate::fault::Fault;
use crate::numbers::triple_at;

/// A field or a method, whose names aren't looked at yet.
#[derive(Clone, Copy, Debug)]
pub(crate) struct Member<'a> {
    /// The access flags.
    pub(crate) flags: u16,
    /// The index of the name.
    pub(crate) name: u16,
    /// The index of the descriptor.
    pub(crate) descriptor: u16,
    /// How often the attribute that was asked for stands there.
    pub(crate) occurrence: Occurrence<'a>,
}

/// The member at the front, in which attributes of a name are looked for, and what stands behind it.
pub(crate) fn member_at<'a>(
    constants: &Constants<'_>,
    attribute: &[u8],
    bytes: &'a [u8],
) -> Result<(Member<'a>, &'a [u8]), Fault>
    ensures { Tells (SpellsMember constants.now) (TellsMember constants.now attribute.now) bytes.now result }
{
    let ((flags, name, descriptor), rest) = triple_at(bytes)?;
    let (occurrence, rest) = attributes_named(constants, attribute, rest)?;
    let member = Member {
        flags,
        name,
        descriptor,
        occurrence,
    };
    Ok((member, rest))
}
