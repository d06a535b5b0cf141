// Entering the constants of a record.
ghost use Rattle.std.specs.Prelude.{◌≡◌, ◌+◌, IfOk, Some, length};
ghost use Rattle.cb_core.specs.Entered.{HasRoom, IsCallable, IsClassOf, IsFieldOf, IsMethodOf, IsNameAndType, IsStringOf, IsTextOf, MayEnter, MayName, Puts, Stands};
ghost use Rattle.cb_core.specs.Sound.{IsShort, IsSoundClassName, IsSoundFieldDescriptor, IsSoundFieldName, IsSoundMethodDescriptor, IsSoundMethodName};
ghost use Rattle.cb_core.specs.Recorded.{entered, with_class, with_constant, with_field, with_method, with_name_and_type, with_string, with_text};

use cb_classfile::{Constant, Pool, Units};
use cb_plain::OutOfMemory;
use std::alloc::Global;

/// Adds a constant, and gives its index.
fn enter(pool: &mut Pool, constant: Constant) -> Result<u16, OutOfMemory>
    requires { MayEnter pool.old constant }
    ensures put { IfOk result (Puts 1 (Stands constant) pool.old pool.new) }
    ensures next { IfOk result (λ index. index ≡ length pool.old + 1) }
    ensures made { IfOk result (λ index. with_constant constant pool.old ≡ entered pool.new index) }
{
    // What stands there is a pool, so it is one with the constant behind it too.
    let _ = pool.constants();
    pool.push(constant)
}

/// The UTF-16 units of an ASCII text.
fn units_of(alloc: Global, text: &str) -> Result<Units, OutOfMemory>
    ensures { IfOk result (λ units. units ≡ text.now) }
{
    let bytes = text.as_bytes();
    let mut units = Units::with_capacity(alloc, bytes.len())?;
    for byte in bytes {
        units.push(u16::from(*byte))?;
    }
    Ok(units)
}

/// Enters a text, and gives its index.
pub(crate) fn enter_text(alloc: Global, pool: &mut Pool, text: &str) -> Result<u16, OutOfMemory>
    requires room { HasRoom 1 pool.old }
    requires short { IsShort text.now }
    ensures put { IfOk result (Puts 1 (IsTextOf text.now) pool.old pool.new) }
    ensures next { IfOk result (λ index. index ≡ length pool.old + 1) }
    ensures made { IfOk result (λ index. with_text text.now pool.old ≡ entered pool.new index) }
{
    let units = units_of(alloc, text)?;
    enter(pool, Constant::Utf8(units))
}

/// Enters a class behind its name, and gives its index.
pub(crate) fn enter_class(alloc: Global, pool: &mut Pool, name: &str) -> Result<u16, OutOfMemory>
    requires room { HasRoom 2 pool.old }
    requires sound { IsSoundClassName name.now }
    ensures put { IfOk result (Puts 2 (IsClassOf name.now) pool.old pool.new) }
    ensures made { IfOk result (λ index. with_class name.now pool.old ≡ entered pool.new index) }
{
    let text = enter_text(alloc, pool, name)?;
    enter(pool, Constant::Class(text))
}

/// Enters a string behind its text, and gives its index.
pub(crate) fn enter_string(alloc: Global, pool: &mut Pool, text: &str) -> Result<u16, OutOfMemory>
    requires room { HasRoom 2 pool.old }
    requires short { IsShort text.now }
    ensures put { IfOk result (Puts 2 (IsStringOf text.now) pool.old pool.new) }
    ensures made { IfOk result (λ index. with_string text.now pool.old ≡ entered pool.new index) }
{
    let text = enter_text(alloc, pool, text)?;
    enter(pool, Constant::String(text))
}

/// Enters the name and type of a member behind its name and its descriptor, and gives its index.
fn enter_name_and_type(
    alloc: Global,
    pool: &mut Pool,
    name: &str,
    descriptor: &str,
) -> Result<u16, OutOfMemory>
    requires room { HasRoom 3 pool.old }
    requires named { MayName name.now descriptor.now }
    ensures put { IfOk result (Puts 3 (IsNameAndType name.now descriptor.now) pool.old pool.new) }
    ensures made { IfOk result (λ index. with_name_and_type name.now descriptor.now pool.old ≡ entered pool.new index) }
{
    let name = enter_text(alloc, pool, name)?;
    let descriptor = enter_text(alloc, pool, descriptor)?;
    enter(pool, Constant::NameAndType(name, descriptor))
}

/// Enters a field behind its parts, and gives its index.
pub(crate) fn enter_field(
    alloc: Global,
    pool: &mut Pool,
    class: &str,
    name: &str,
    descriptor: &str,
) -> Result<u16, OutOfMemory>
    requires room { HasRoom 6 pool.old }
    requires class { IsSoundClassName class.now }
    requires name { IsSoundFieldName name.now }
    requires descriptor { IsSoundFieldDescriptor descriptor.now }
    ensures put { IfOk result (Puts 6 (IsFieldOf class.now name.now descriptor.now) pool.old pool.new) }
    ensures made { IfOk result (λ index. with_field class.now name.now descriptor.now pool.old ≡ entered pool.new index) }
{
    let holder = enter_class(alloc, pool, class)?;
    let member = enter_name_and_type(alloc, pool, name, descriptor)?;
    enter(pool, Constant::Fieldref(holder, member))
}

/// Enters a method of a class behind its parts, and gives its index.
pub(crate) fn enter_method(
    alloc: Global,
    pool: &mut Pool,
    class: &str,
    name: &str,
    descriptor: &str,
) -> Result<u16, OutOfMemory>
    requires room { HasRoom 6 pool.old }
    requires class { IsSoundClassName class.now }
    requires names { IsCallable name.now descriptor.now }
    ensures put { IfOk result (Puts 6 (IsMethodOf class.now name.now descriptor.now) pool.old pool.new) }
    ensures made { IfOk result (λ index. with_method class.now name.now descriptor.now pool.old ≡ entered pool.new index) }
{
    let holder = enter_class(alloc, pool, class)?;
    let member = enter_name_and_type(alloc, pool, name, descriptor)?;
    enter(pool, Constant::Methodref(holder, member))
}
