// Constants by what they say.
ghost use Rattle.std.specs.Prelude.{◌≡◌};
ghost use Rattle.cb_asm_record.specs.Entries.{member_entry, value_entry};
ghost use Rattle.cb_asm_record.specs.Inner.{key_entry};

use cb_asm_line::{MemberText, Value};
use cb_text::MemberKind;

/// A constant by what it says, with the names themselves in place of indices (JVMS §4.4).
#[derive(Clone, Copy, PartialEq, Eq, PartialOrd, Ord)]
pub(crate) enum Key<'a> {
    /// A text.
    Text(&'a [u16]),
    /// An int.
    Int(i32),
    /// A long.
    Long(i64),
    /// A class, by its name.
    Class(&'a [u16]),
    /// A string.
    String(&'a [u16]),
    /// A name and a descriptor.
    NameAndType(&'a [u16], &'a [u16]),
    /// A field, by the names of its class, itself and its type.
    Field(&'a [u16], &'a [u16], &'a [u16]),
    /// A method of a class, by the same.
    Method(&'a [u16], &'a [u16], &'a [u16]),
    /// A method of an interface, by the same.
    InterfaceMethod(&'a [u16], &'a [u16], &'a [u16]),
}

/// The constant that stands for itself.
pub(crate) fn value_key<'a>(value: &'a Value) -> Key<'a>
    ensures { key_entry result ≡ value_entry value.now }
{
    match value {
        Value::Int(number) => Key::Int(*number),
        Value::Long(number) => Key::Long(*number),
        Value::Text(text) => Key::String(text.as_slice()),
        Value::Class(name) => Key::Class(name.as_slice()),
    }
}

/// The constant of a field or method.
pub(crate) fn member_key<'a>(member: &'a MemberText) -> Key<'a>
    ensures { key_entry result ≡ member_entry member.now }
{
    let class = member.class.as_slice();
    let name = member.name.as_slice();
    let descriptor = member.descriptor.as_slice();
    match member.kind {
        MemberKind::Field => Key::Field(class, name, descriptor),
        MemberKind::Method => Key::Method(class, name, descriptor),
        MemberKind::InterfaceMethod => Key::InterfaceMethod(class, name, descriptor),
    }
}
