// The record of a row.
ghost use Rattle.std.specs.Prelude.{◌≡◌, ◌*◌, IfOk, IfSome, Some, length, map, option_map};
ghost use Rattle.std.specs.List.{AllByRecursion, AllZip};
ghost use Rattle.cb_text.specs.Naming.{class_at};
ghost use Rattle.cb_classfile.specs.Library.{SaysSuperclass};
ghost use Rattle.cb_core.specs.Built.{IsBuilt};
ghost use Rattle.cb_core.specs.Entered.{HasRoom, IsNewPool, Puts};
ghost use Rattle.cb_core.specs.Rowed.{class_row};
ghost use Rattle.cb_core.specs.Sound.{IsSound, IsSoundClassName};
ghost use Rattle.cb_core.specs.Recorded.{entered, new_pool, record_of, with_class, with_each, with_superclass};

use crate::constants::{enter_class, enter_text};
use crate::members::{fields_of, methods_of};
use crate::row::CoreClass;
use cb_classfile::{ClassFile, ClassFlags, Pool};
use cb_plain::{Numbers, OutOfMemory};
use std::alloc::Global;

/// The version of Java SE 8 (JVMS §4.1).
const VERSION: u16 = 52;

/// The record of a row. Takes time in the size of the row.
pub(crate) fn record(alloc: Global, row: &CoreClass) -> Result<ClassFile, OutOfMemory>
    requires { IsSound (class_row row.now) }
    ensures built { IfOk result (IsBuilt (class_row row.now)) }
    ensures made { IfOk result (λ class. class ≡ record_of (class_row row.now)) }
{
    let mut pool = new_pool(alloc)?;
    let this_class = enter_class(alloc, &mut pool, row.name)?;
    let super_class = superclass_of(alloc, &mut pool, &row.superclass)?;
    let interfaces = interfaces_of(alloc, &mut pool, row.interfaces)?;
    let fields = fields_of(alloc, &mut pool, row.fields)?;
    let methods = methods_of(alloc, &mut pool, row.methods)?;
    Ok(ClassFile {
        minor: 0,
        major: VERSION,
        pool,
        flags: ClassFlags(row.flags),
        this_class,
        super_class,
        interfaces,
        fields,
        methods,
    })
}

/// A pool that has the names of the two attributes.
fn new_pool(alloc: Global) -> Result<Pool, OutOfMemory>
    ensures built { IfOk result IsNewPool }
    ensures made { IfOk result (λ pool. pool ≡ new_pool) }
{
    let mut pool = Pool::new(alloc);
    enter_text(alloc, &mut pool, "Code")?;
    enter_text(alloc, &mut pool, "StackMapTable")?;
    Ok(pool)
}

/// The index of the superclass, or 0 for none.
fn superclass_of(alloc: Global, pool: &mut Pool, name: &Option<&str>) -> Result<u16, OutOfMemory>
    requires room { HasRoom 2 pool.old }
    requires sound { IfSome (option_map (λ name. name.now) name.now) IsSoundClassName }
    ensures put { IfOk result (Puts 2 (λ pool index. SaysSuperclass pool (option_map (λ name. name.now) name.now) index) pool.old pool.new) }
    ensures made { IfOk result (λ index. with_superclass (option_map (λ name. name.now) name.now) pool.old ≡ entered pool.new index) }
{
    match name {
        Some(name) => enter_class(alloc, pool, name),
        None => Ok(0),
    }
}

/// The indices of interfaces.
fn interfaces_of(alloc: Global, pool: &mut Pool, names: &[&str]) -> Result<Numbers, OutOfMemory>
    requires room { HasRoom (2 * length names.now) pool.old }
    requires sound { AllByRecursion IsSoundClassName (map (λ name. name.now) names.now) }
    ensures put { IfOk result (Puts (2 * length names.now)
        (λ pool indices. AllZip (λ name index. class_at pool index ≡ Some name) (map (λ name. name.now) names.now) indices) pool.old pool.new) }
    ensures made { IfOk result (λ indices. with_each with_class (map (λ name. name.now) names.now) pool.old ≡ entered pool.new indices) }
{
    let mut indices = Numbers::with_capacity(alloc, names.len())?;
    for name in names {
        let class = enter_class(alloc, pool, name)?;
        indices.push(u32::from(class))?;
    }
    Ok(indices)
}
