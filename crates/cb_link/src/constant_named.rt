// What a constant is in a program.
ghost use Rattle.std.specs.Prelude.{◌≡◌, IfOk, option_and_then, option_copied, option_map};
ghost use Rattle.cb_kinds.specs.Texts.{number_of};
ghost use Rattle.cb_link.specs.Inner.{names_of_member};
ghost use Rattle.cb_link.specs.Named.{constant_named, field_named, member_named, or_nothing};
ghost use Rattle.cb_link.specs.InnerTables.{IsFieldTables};
ghost use Rattle.cb_link.specs.declared.named.Named.TheVariants as variants;

use crate::Named;
use crate::base::Base;
use crate::field_tables::FieldTables;
use cb_kinds::Texts;
use cb_plain::{OutOfMemory, Value};
use cb_text::{Constant, Member, MemberKind, Pool};
use std::alloc::Global;

/// What the constant at an index of a pool is. `OutOfMemory` where no memory was to be had.
pub(crate) fn constant_named(
    alloc: Global,
    base: &Base,
    fields: &FieldTables,
    pool: &Pool,
    index: u16,
) -> Result<Named, OutOfMemory>
    requires { IsFieldTables base.now fields.now }
    ensures { IfOk result (λ named. named ≡ or_nothing (constant_named base.now.classes base.now.kinds base.now.constants pool.now index)) }
{
    match pool.get(index) {
        Some(Constant::Integer(number)) => Ok(Named::Whole(Value::Int(number.cast_signed()))),
        Some(Constant::Long(number)) => Ok(Named::Whole(Value::Long(number.cast_signed()))),
        Some(Constant::String(text)) => Ok(text_named(&base.constants, pool.text(*text))),
        Some(Constant::Class(name)) => Ok(kind_named(&base.kinds, pool.text(*name))),
        Some(_) => member_or_nothing(alloc, base, fields, pool.member(index)),
        None => Ok(Named::Nothing),
    }
}

/// The text of a string that the program has.
fn text_named(constants: &Texts, text: Option<&[u16]>) -> Named
    ensures { result ≡ or_nothing (option_map variants.Text (option_and_then (number_of constants.now) (option_copied text.entry))) }
{
    let Some(text) = text else {
        return Named::Nothing;
    };
    match constants.number(text) {
        Some(number) => Named::Text(number),
        None => Named::Nothing,
    }
}

/// The kind of a name that the program has.
fn kind_named(kinds: &Texts, name: Option<&[u16]>) -> Named
    ensures { result ≡ or_nothing (option_map variants.Kind (option_and_then (number_of kinds.now) (option_copied name.entry))) }
{
    let Some(name) = name else {
        return Named::Nothing;
    };
    match kinds.number(name) {
        Some(number) => Named::Kind(number),
        None => Named::Nothing,
    }
}

/// The member that a constant names, if it names one.
fn member_or_nothing(
    alloc: Global,
    base: &Base,
    fields: &FieldTables,
    member: Option<Member<'_>>,
) -> Result<Named, OutOfMemory>
    requires { IsFieldTables base.now fields.now }
    ensures { IfOk result (λ named. named ≡ or_nothing (option_and_then (member_named base.now.classes) (option_map names_of_member member.entry))) }
{
    match member {
        Some(member) => member_named(alloc, base, fields, member),
        None => Ok(Named::Nothing),
    }
}

/// The member that is found.
fn member_named(
    alloc: Global,
    base: &Base,
    fields: &FieldTables,
    member: Member<'_>,
) -> Result<Named, OutOfMemory>
    requires { IsFieldTables base.now fields.now }
    ensures { IfOk result (λ named. named ≡ or_nothing (member_named base.now.classes (names_of_member member.entry))) }
{
    if member.kind == MemberKind::Field {
        return Ok(match base.resolver.found_field(member) {
            Some(number) => field_named(base, fields, number),
            None => Named::Nothing,
        });
    }
    Ok(match base.resolver.found_method(alloc, member)? {
        Some(number) => Named::Method(number),
        None => Named::Nothing,
    })
}

/// The field of a number, with its class and slot.
fn field_named(base: &Base, fields: &FieldTables, number: u32) -> Named
    requires { IsFieldTables base.now fields.now }
    ensures { result ≡ field_named base.now.classes number }
{
    let Some(field) = base.resolver.field(number) else {
        return Named::Nothing;
    };
    let class = field.declared.class;
    let slot = *fields.slots.get(number as usize);
    if field.is_static {
        Named::Static { class, slot }
    } else {
        Named::Field { class, slot }
    }
}
