// What an index of the constant pool names (JVMS §4.4).
ghost use Rattle.std.specs.Prelude.{◌≡◌, option_copied, option_map};
ghost use Rattle.cb_text.specs.Naming.{class_at, dynamic_at, member_at, name_and_type_at, string_at, text_at};

use crate::{Constant, Pool};

/// A name and a descriptor (JVMS §4.4.6).
#[derive(Clone, Copy, Debug, PartialEq, Eq)]
pub struct NameAndType<'a> {
    /// The name of a field or method.
    pub name: &'a [u16],
    /// Its descriptor.
    pub descriptor: &'a [u16],
}

/// A field or method that a constant names (JVMS §4.4.2).
#[derive(Clone, Copy, Debug, PartialEq, Eq)]
pub struct Member<'a> {
    /// What it is.
    pub kind: MemberKind,
    /// The name of the class or interface in which it is looked for, which may be an array's descriptor.
    pub class: &'a [u16],
    /// Its name.
    pub name: &'a [u16],
    /// Its descriptor.
    pub descriptor: &'a [u16],
}

/// What a constant names a member as (JVMS §4.4.2).
#[derive(Clone, Copy, Debug, PartialEq, Eq)]
pub enum MemberKind {
    /// A field.
    Field,
    /// A method of a class.
    Method,
    /// A method of an interface.
    InterfaceMethod,
}

impl Pool {
    /// The units of the text at an index, or `None` where no text stands there. Takes constant time.
    pub fn text(&self, index: u16) -> Option<&[u16]>
        ensures { option_copied result ≡ text_at self.now index }
    {
        match self.get(index)? {
            Constant::Utf8(units) => Some(units.as_slice()),
            _ => None,
        }
    }

    /// The name of the class at an index, which may be an array's descriptor (JVMS §4.4.1), or `None` where no class
    /// stands there. Takes constant time.
    pub fn class(&self, index: u16) -> Option<&[u16]>
        ensures { option_copied result ≡ class_at self.now index }
    {
        match self.get(index)? {
            Constant::Class(name) => self.text(*name),
            _ => None,
        }
    }

    /// The text of the string at an index (JVMS §4.4.3), or `None` where no string stands there. Takes constant time.
    pub fn string(&self, index: u16) -> Option<&[u16]>
        ensures { option_copied result ≡ string_at self.now index }
    {
        match self.get(index)? {
            Constant::String(text) => self.text(*text),
            _ => None,
        }
    }

    /// The name and type at an index (JVMS §4.4.6), or `None` where none stands there. Takes constant time.
    pub fn name_and_type(&self, index: u16) -> Option<NameAndType<'_>>
        ensures { option_map (λ found. (found.name.now, found.descriptor.now)) result
            ≡ name_and_type_at self.now index }
    {
        match self.get(index)? {
            Constant::NameAndType(name, descriptor) => {
                let name = self.text(*name)?;
                let descriptor = self.text(*descriptor)?;
                Some(NameAndType { name, descriptor })
            }
            _ => None,
        }
    }

    /// The field or method that the constant at an index names (JVMS §4.4.2), or `None` where it names none. Takes
    /// constant time.
    pub fn member(&self, index: u16) -> Option<Member<'_>>
        ensures { option_map (λ found. record {
          kind = found.kind;
          class = found.class.now;
          name = found.name.now;
          descriptor = found.descriptor.now;
        }) result ≡ member_at self.now index }
    {
        let (kind, holder, member) = match self.get(index)? {
            Constant::Fieldref(holder, member) => (MemberKind::Field, *holder, *member),
            Constant::Methodref(holder, member) => (MemberKind::Method, *holder, *member),
            Constant::InterfaceMethodref(holder, member) => {
                (MemberKind::InterfaceMethod, *holder, *member)
            }
            _ => return None,
        };
        let class = self.class(holder)?;
        let NameAndType { name, descriptor } = self.name_and_type(member)?;
        Some(Member {
            kind,
            class,
            name,
            descriptor,
        })
    }

    /// The name and type of what the invokedynamic at an index calls (JVMS §4.4.10), or `None` where no such constant
    /// stands there. Takes constant time.
    pub fn dynamic(&self, index: u16) -> Option<NameAndType<'_>>
        ensures { option_map (λ found. (found.name.now, found.descriptor.now)) result ≡ dynamic_at self.now index }
    {
        match self.get(index)? {
            Constant::InvokeDynamic(_, member) => self.name_and_type(*member),
            _ => None,
        }
    }
}
