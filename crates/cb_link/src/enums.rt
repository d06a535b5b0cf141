// The constants of enums.
ghost use Rattle.std.specs.Prelude.{◌≡◌, ◌+◌, ◌<◌, ◌&&◌, ℕ, [], length, replicate, slice_get, IfOk, OnOk, Some};
ghost use Rattle.cb_classfile.specs.Pool.{text_at};
ghost use Rattle.cb_kinds.specs.Kinds.{type_of_name};
ghost use Rattle.cb_kinds.specs.Texts.{same_text};
ghost use Rattle.cb_link.specs.InnerCounts.{AreEnums};
ghost use Rattle.cb_classfile.specs.Flags.{acc_static};
ghost use Rattle.cb_link.specs.Numbers.{acc_enum, class_number, has_flag, hierarchy, name_of, or_none, ranked_fields};
ghost use Rattle.cb_link.specs.Slots.{enum_name, enum_statics, is_enum, is_enum_static, slot_of};
ghost use Rattle.cb_link.specs.InnerTables.{AreAll};

use crate::base::Base;
use crate::class_order::is_above;
use crate::descriptors::text_or_none;
use crate::ranked::name_of;
use crate::resolver::Resolver;
use cb_classfile::{ClassFile, Field, FieldFlags};
use cb_kinds::array_of;
use cb_plain::{Numbers, OutOfMemory, number_of};
use std::alloc::Global;

/// The access flags of an enum's constant (JVMS table 4.5-A).
const STATIC: u16 = FieldFlags::STATIC.0;

const ENUM: u16 = FieldFlags::ENUM.0;

/// The name of the superclass of enums.
const ENUM_NAME: &[u16] = &[
    b'j' as u16,
    b'a' as u16,
    b'v' as u16,
    b'a' as u16,
    b'/' as u16,
    b'l' as u16,
    b'a' as u16,
    b'n' as u16,
    b'g' as u16,
    b'/' as u16,
    b'E' as u16,
    b'n' as u16,
    b'u' as u16,
    b'm' as u16,
];

/// Whether flags are those of an enum's constant.
fn has_enum_flags(flags: u16) -> bool
    ensures { result ≡ (has_flag acc_static flags && has_flag acc_enum flags) }
{
    flags & STATIC == STATIC && flags & ENUM == ENUM
}

/// Whether the type of a field is its class.
fn is_of_own_type(alloc: Global, class: &ClassFile, field: &Field) -> Result<bool, OutOfMemory>
    ensures { IfOk result (λ is. is ≡ same_text (or_none (text_at class.now.pool field.now.descriptor)) (type_of_name (name_of class.now))) }
{
    let array = array_of(alloc, name_of(class))?;
    Ok(text_or_none(&class.pool, field.descriptor) == &array[1..])
}

/// Whether a class is below that of enums.
fn is_enum(resolver: &Resolver, class: u32) -> bool
    requires { class < length (hierarchy resolver.now) }
    ensures { result ≡ is_enum resolver.now class (class_number resolver.now enum_name) }
{
    let Some(wanted) = resolver.class_number(ENUM_NAME) else {
        return false;
    };
    is_above(resolver.hierarchy(), class, wanted)
}

/// Whether a field of the class of a number is an enum's constant.
fn is_constant(
    alloc: Global,
    resolver: &Resolver,
    number: u32,
    class: &ClassFile,
    field: &Field,
) -> Result<bool, OutOfMemory>
    requires { slice_get resolver.now number ≡ Some class.now }
    ensures { (place : ℕ) → IfOk result (λ is. is ≡ is_enum_static resolver.now (record { class = number; place = place; pool = class.now.pool; member = field.now })) }
{
    if !has_enum_flags(field.flags.0) {
        return Ok(false);
    }
    if !is_of_own_type(alloc, class, field)? {
        return Ok(false);
    }
    Ok(is_enum(resolver, number))
}

/// Adds the slot of a field to the row of its class, if it is an enum's constant.
fn add_constant(
    alloc: Global,
    base: &Base,
    slots: &Numbers,
    rows: &mut Vec<Numbers>,
    number: u32,
) -> Result<(), OutOfMemory>
    requires field { number < length base.now.fields }
    requires slots { AreAll (length (ranked_fields base.now.classes)) (slot_of base.now.classes) slots.now }
    requires rows { AreEnums base.now.classes number rows.old.items }
    ensures { OnOk result (AreEnums base.now.classes (number + 1) rows.new.items) }
{
    let linked = base.linked_field(number);
    let class = base.class(linked.class);
    let field = class.fields.get(linked.place as usize);
    if is_constant(alloc, &base.resolver, linked.class, class, field)? {
        rows[linked.class as usize].push(*slots.get(number as usize))?;
    }
    Ok(())
}

/// So many rows without numbers.
fn empty_rows(alloc: Global, count: usize) -> Result<Vec<Numbers>, OutOfMemory>
    ensures { IfOk result (λ rows. rows.items ≡ replicate count []) }
{
    let mut rows = Vec::with_capacity(alloc, count)?;
    for _row in 0..count {
        rows.push(Numbers::new(alloc))?;
    }
    Ok(rows)
}

/// By class, the slots of an enum's constants. Takes time in the fields, and for each constant in its class's superclasses.
pub(crate) fn enums(
    alloc: Global,
    base: &Base,
    slots: &Numbers,
) -> Result<Vec<Numbers>, OutOfMemory>
    requires { AreAll (length (ranked_fields base.now.classes)) (slot_of base.now.classes) slots.now }
    ensures { IfOk result (λ rows. AreAll (length base.now.classes) (enum_statics base.now.classes) rows.items) }
{
    let mut rows = empty_rows(alloc, base.resolver.classes.len())?;
    for index in 0..base.fields.len() {
        add_constant(alloc, base, slots, &mut rows, number_of(index)?)?;
    }
    Ok(rows)
}
