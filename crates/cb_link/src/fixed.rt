// The kinds of the machine's own sites.
ghost use Rattle.std.specs.Prelude.{◌≡◌, map, IfOk, OnOk};
ghost use Rattle.std.specs.List.{flat_map};
ghost use Rattle.cb_kinds.specs.Basics.{kind_number};
ghost use Rattle.cb_kinds.specs.Kinds.{kinds_of_name};
ghost use Rattle.cb_kinds.specs.Texts.{entered_all};

use cb_kinds::{Texts, enter_kinds_of_name, kind_number};
use cb_plain::{Numbers, OutOfMemory};
use std::alloc::Global;

/// The names of the kinds of the objects that the machine and its natives place, site by site.
pub(crate) static FIXED_KINDS: [&str; 32] = [
    "[Ljava/lang/String;",
    "java/lang/String",
    "[C",
    "java/io/PrintStream",
    "java/io/InputStream",
    "java/lang/String",
    "[C",
    "java/lang/Class",
    "java/lang/String",
    "[C",
    "[C",
    "java/lang/Integer",
    "java/lang/Long",
    "java/lang/Character",
    "java/lang/Boolean",
    "[Ljava/lang/Throwable;",
    "java/lang/NullPointerException",
    "java/lang/ArithmeticException",
    "java/lang/ArrayIndexOutOfBoundsException",
    "java/lang/NegativeArraySizeException",
    "java/lang/ArrayStoreException",
    "java/lang/ClassCastException",
    "java/lang/StackOverflowError",
    "java/lang/ExceptionInInitializerError",
    "java/lang/NoClassDefFoundError",
    "java/lang/IncompatibleClassChangeError",
    "java/lang/AbstractMethodError",
    "java/lang/StringIndexOutOfBoundsException",
    "java/lang/NumberFormatException",
    "java/lang/IllegalArgumentException",
    "java/lang/CloneNotSupportedException",
    "java/lang/IndexOutOfBoundsException",
];

/// Enters the kinds of these names, which are ASCII. `OutOfMemory` where no memory was to be had.
pub(crate) fn enter_named(
    alloc: Global,
    names: &[&'static str],
    kinds: &mut Texts,
) -> Result<(), OutOfMemory>
    ensures { OnOk result (kinds.new ≡ entered_all kinds.old (flat_map (λ name. kinds_of_name name.now) names.now)) }
{
    for name in names {
        enter_kinds_of_name(kinds, &units_of_name(alloc, name)?)?;
    }
    Ok(())
}

/// The numbers of the kinds of these names, which are ASCII.
pub(crate) fn numbers_of(
    alloc: Global,
    kinds: &Texts,
    names: &[&'static str],
) -> Result<Numbers, OutOfMemory>
    ensures { IfOk result (λ numbers. numbers ≡ map (λ name. kind_number kinds.now name.now) names.now) }
{
    let mut numbers = Numbers::with_capacity(alloc, names.len())?;
    for name in names {
        numbers.push(number_of_name(alloc, kinds, name)?)?;
    }
    Ok(numbers)
}

/// The number of the kind of this name, which is ASCII.
fn number_of_name(alloc: Global, kinds: &Texts, name: &str) -> Result<u32, OutOfMemory>
    ensures { IfOk result (λ number. number ≡ kind_number kinds.now name.now) }
{
    Ok(kind_number(kinds, &units_of_name(alloc, name)?))
}

/// The units of this name, which is ASCII.
fn units_of_name(alloc: Global, name: &str) -> Result<Vec<u16>, OutOfMemory>
    ensures { IfOk result (λ units. units.items ≡ name.now) }
{
    let bytes = name.as_bytes();
    let mut units = Vec::with_capacity(alloc, bytes.len())?;
    for byte in bytes {
        units.push(u16::from(*byte))?;
    }
    Ok(units)
}
