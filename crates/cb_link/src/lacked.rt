// What an instruction lacks of the member or class that it names.
ghost use Rattle.std.specs.Prelude.{◌≡◌, ◌++◌, IfOk, option_copied, option_map};
ghost use Rattle.cb_names.specs.Signs.{name_init};
ghost use Rattle.cb_link.specs.Inner.{names_of_member};
ghost use Rattle.cb_link.specs.InnerLacked.{finds_field, finds_method};
ghost use Rattle.cb_link.specs.Lacking.{is_instance_call, is_instance_field, is_of_library, is_static_call, is_static_field, lacks_class, lacks_member, names_abstract, suits, suits_field, suits_method};
ghost use Rattle.cb_link.specs.Numbers.{same_name};

use crate::resolver::Resolver;
use crate::units::units_of;
use cb_classfile::{ClassFlags, opcode};
use cb_hierarchy::{Field, Method};
use cb_plain::OutOfMemory;
use cb_text::{Member, Units};
use std::alloc::Global;

/// How many classes the library has.
const LIBRARY_SIZE: u32 = 50;

/// The flag of an abstract class (JVMS table 4.1-A).
const ACC_ABSTRACT: u16 = ClassFlags::ABSTRACT.0;

/// The name of a constructor.
const INIT: [u16; 6] = [
    b'<' as u16,
    b'i' as u16,
    b'n' as u16,
    b'i' as u16,
    b't' as u16,
    b'>' as u16,
];

/// What an instruction `new` asks for.
const NEW: [u16; 3] = [b'n' as u16, b'e' as u16, b'w' as u16];

/// Whether an instruction is one on a static field.
fn is_static_field(code: u8) -> bool
    ensures { result ≡ is_static_field code }
{
    code == opcode::GETSTATIC || code == opcode::PUTSTATIC
}

/// Whether an instruction is one on a field of an object.
fn is_instance_field(code: u8) -> bool
    ensures { result ≡ is_instance_field code }
{
    code == opcode::GETFIELD || code == opcode::PUTFIELD
}

/// Whether an instruction calls a static method.
fn is_static_call(code: u8) -> bool
    ensures { result ≡ is_static_call code }
{
    code == opcode::INVOKESTATIC
}

/// Whether an instruction calls a method of an object.
fn is_instance_call(code: u8) -> bool
    ensures { result ≡ is_instance_call code }
{
    code == opcode::INVOKEVIRTUAL
        || code == opcode::INVOKESPECIAL
        || code == opcode::INVOKEINTERFACE
}

/// Whether a number is that of a class of the library.
fn is_of_library(class: u32) -> bool
    ensures { result ≡ is_of_library class }
{
    class < LIBRARY_SIZE
}

/// Whether a field is what an instruction of a class asks for.
fn suits_field(class: u32, code: u8, field: Option<&Field>) -> bool
    ensures { result ≡ suits_field class code (option_copied field.entry) }
{
    match field {
        Some(field) => {
            if is_static_field(code) {
                field.is_static
            } else {
                !field.is_static && (is_of_library(class) || !is_of_library(field.declared.class))
            }
        }
        None => false,
    }
}

/// Whether a method is what an instruction asks for, where the class of this number was named.
fn suits_method(code: u8, named: Option<u32>, is_init: bool, method: Option<&Method>) -> bool
    ensures { result ≡ suits_method code named is_init (option_copied method.entry) }
{
    match method {
        Some(method) => {
            if is_static_call(code) {
                method.is_static
            } else {
                !method.is_static && (!is_init || named == Some(method.declared.class))
            }
        }
        None => false,
    }
}

/// Whether a name is that of a constructor.
pub(crate) fn is_init(name: &[u16]) -> bool
    ensures { result ≡ same_name name.now name_init }
{
    name == INIT.as_slice()
}

/// Whether the field that is found is what an instruction of a class asks for.
fn finds_field(resolver: &Resolver, class: u32, code: u8, member: Member<'_>) -> bool
    ensures { result ≡ finds_field resolver.now class code (names_of_member member.entry) }
{
    match resolver.found_field(member) {
        Some(number) => suits_field(class, code, resolver.field(number)),
        None => false,
    }
}

/// Whether the method that is found is what an instruction asks for.
fn finds_method(
    alloc: Global,
    resolver: &Resolver,
    code: u8,
    member: Member<'_>,
) -> Result<bool, OutOfMemory>
    ensures { IfOk result (λ answer. answer ≡ finds_method resolver.now code (names_of_member member.entry)) }
{
    let named = resolver.class_number(member.class);
    let is_init = is_init(member.name);
    match resolver.found_method(alloc, member)? {
        Some(number) => Ok(suits_method(code, named, is_init, resolver.method(number))),
        None => Ok(false),
    }
}

/// Whether the member that an instruction of a class names is what it asks for.
fn suits(
    alloc: Global,
    resolver: &Resolver,
    class: u32,
    code: u8,
    member: Member<'_>,
) -> Result<bool, OutOfMemory>
    ensures { IfOk result (λ answer. answer ≡ suits resolver.now class code (names_of_member member.entry)) }
{
    if is_static_field(code) || is_instance_field(code) {
        Ok(finds_field(resolver, class, code, member))
    } else if is_static_call(code) || is_instance_call(code) {
        finds_method(alloc, resolver, code, member)
    } else {
        Ok(true)
    }
}

/// The name and the descriptor of a member, as one text.
fn text_of(alloc: Global, name: &[u16], descriptor: &[u16]) -> Result<Units, OutOfMemory>
    ensures { IfOk result (λ text. text ≡ name.now ++ descriptor.now) }
{
    let mut text = units_of(alloc, name)?;
    for unit in descriptor {
        text.push(*unit)?;
    }
    Ok(text)
}

/// What an instruction of a class lacks that names this member.
pub(crate) fn lacks_member(
    alloc: Global,
    resolver: &Resolver,
    class: u32,
    code: u8,
    member: Option<Member<'_>>,
) -> Result<Option<Units>, OutOfMemory>
    ensures { IfOk result (λ text. text ≡ lacks_member resolver.now class code (option_map names_of_member member.entry)) }
{
    match member {
        Some(member) => {
            if suits(alloc, resolver, class, code, member)? {
                Ok(None)
            } else {
                Ok(Some(text_of(alloc, member.name, member.descriptor)?))
            }
        }
        None => Ok(None),
    }
}

/// Whether the class of a name is abstract.
fn names_abstract(resolver: &Resolver, name: &[u16]) -> bool
    ensures { result ≡ names_abstract resolver.now name.now }
{
    match resolver.class_number(name) {
        Some(number) => match resolver.classes().as_slice().get(number as usize) {
            Some(class) => class.flags.0 & ACC_ABSTRACT == ACC_ABSTRACT,
            None => false,
        },
        None => false,
    }
}

/// What an instruction lacks that makes an object of the class of this name.
pub(crate) fn lacks_class(
    alloc: Global,
    resolver: &Resolver,
    name: Option<&[u16]>,
) -> Result<Option<Units>, OutOfMemory>
    ensures { IfOk result (λ text. text ≡ lacks_class resolver.now (option_copied name.entry)) }
{
    match name {
        Some(name) => {
            if names_abstract(resolver, name) {
                Ok(Some(units_of(alloc, NEW.as_slice())?))
            } else {
                Ok(None)
            }
        }
        None => Ok(None),
    }
}
