// Fields and methods.
ghost use Rattle.std.specs.Prelude.{◌≡◌, ◌*◌, IfOk, length, map};
ghost use Rattle.std.specs.List.{AllByRecursion, AllZip};
ghost use Rattle.cb_classfile.specs.Library.{SaysField};
ghost use Rattle.cb_core.specs.Entered.{HasMethod, HasRoom, Puts};
ghost use Rattle.cb_core.specs.Rowed.{field_row, method_row};
ghost use Rattle.cb_core.specs.Sound.{IsSoundField, IsSoundMethod, method_room, methods_room};
ghost use Rattle.cb_core.specs.Recorded.{entered, with_each, with_member, with_variable};

use crate::body::kind_of;
use crate::constants::enter_text;
use crate::row::{Field as FieldRow, Method as MethodRow};
use cb_classfile::{Field, FieldFlags, Fields, Method, MethodFlags, Methods, Pool};
use cb_plain::OutOfMemory;
use std::alloc::Global;

/// The fields of rows.
pub(crate) fn fields_of(
    alloc: Global,
    pool: &mut Pool,
    rows: &[FieldRow],
) -> Result<Fields, OutOfMemory>
    requires room { HasRoom (2 * length rows.now) pool.old }
    requires sound { AllByRecursion IsSoundField (map field_row rows.now) }
    ensures put { IfOk result (Puts (2 * length rows.now)
        (λ pool fields. AllZip (SaysField pool) (map field_row rows.now) fields) pool.old pool.new) }
    ensures made { IfOk result (λ fields. with_each with_variable (map field_row rows.now) pool.old ≡ entered pool.new fields) }
{
    let mut fields = Fields::with_capacity(alloc, rows.len())?;
    for row in rows {
        let field = field_of(alloc, pool, row)?;
        fields.push(field)?;
    }
    Ok(fields)
}

/// The field of a row. It has no value of its own.
fn field_of(alloc: Global, pool: &mut Pool, row: &FieldRow) -> Result<Field, OutOfMemory>
    requires room { HasRoom 2 pool.old }
    requires sound { IsSoundField (field_row row.now) }
    ensures put { IfOk result (Puts 2 (λ pool field. SaysField pool (field_row row.now) field) pool.old pool.new) }
    ensures made { IfOk result (λ field. with_variable (field_row row.now) pool.old ≡ entered pool.new field) }
{
    let name = enter_text(alloc, pool, row.name)?;
    let descriptor = enter_text(alloc, pool, row.descriptor)?;
    Ok(Field {
        flags: FieldFlags(row.flags),
        name,
        descriptor,
        constant: None,
    })
}

/// The methods of rows.
pub(crate) fn methods_of(
    alloc: Global,
    pool: &mut Pool,
    rows: &[MethodRow],
) -> Result<Methods, OutOfMemory>
    requires room { HasRoom (methods_room (map method_row rows.now)) pool.old }
    requires sound { AllByRecursion IsSoundMethod (map method_row rows.now) }
    ensures put { IfOk result (Puts (methods_room (map method_row rows.now))
        (λ pool methods. AllZip (λ row method. HasMethod row pool method) (map method_row rows.now) methods) pool.old pool.new) }
    ensures made { IfOk result (λ methods. with_each with_member (map method_row rows.now) pool.old ≡ entered pool.new methods) }
{
    let mut methods = Methods::with_capacity(alloc, rows.len())?;
    for row in rows {
        let method = method_of(alloc, pool, row)?;
        methods.push(method)?;
    }
    Ok(methods)
}

/// The method of a row.
fn method_of(alloc: Global, pool: &mut Pool, row: &MethodRow) -> Result<Method, OutOfMemory>
    requires room { HasRoom (method_room (method_row row.now)) pool.old }
    requires sound { IsSoundMethod (method_row row.now) }
    ensures put { IfOk result (Puts (method_room (method_row row.now)) (HasMethod (method_row row.now)) pool.old pool.new) }
    ensures made { IfOk result (λ method. with_member (method_row row.now) pool.old ≡ entered pool.new method) }
{
    let name = enter_text(alloc, pool, row.name)?;
    let descriptor = enter_text(alloc, pool, row.descriptor)?;
    let body = kind_of(alloc, pool, &row.kind)?;
    Ok(Method {
        flags: MethodFlags(row.flags),
        name,
        descriptor,
        body,
    })
}
