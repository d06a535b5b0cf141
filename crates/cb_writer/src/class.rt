// Class files (JVMS §4.1).
ghost use Rattle.std.specs.Prelude.{◌≡◌, ◌↔◌, ◌++◌, IfOk, IsTrue, OnOk};
ghost use Rattle.cb_classfile.specs.Class.{IsClass, IsWellFormed, SpellsClass, SpellsTables, class_bytes};
ghost use Rattle.cb_classfile.specs.Pool.{AreNamed};
ghost use Rattle.cb_classfile.specs.declared.class.ClassFile.{ClassFile as AnyClass};
ghost use Rattle.cb_writer.specs.Formed.{HasSpelling};

use crate::attribute_names::AttributeNames;
use crate::entry::{is_table, push_table};
use crate::numbers::{push_triple, push_u2, push_u4};
use cb_classfile::{ClassFile, is_class, is_class_by_numbers};
use cb_plain::OutOfMemory;
use std::alloc::Global;

/// The four bytes with which a class file begins (JVMS §4.1).
const MAGIC: u32 = 0xCAFE_BABE;

/// Whether some bytes spell a record (JVMS chapter 4). Takes no memory, and time in the size of the record, times the
/// logarithm of the number of instructions for each target and handler, and in the number of pairs of fields and in that of
/// pairs of methods, for each of which two names and two descriptors may be compared. Each time that an index names a text,
/// that text may be walked.
pub fn well_formed(class: &ClassFile) -> bool
    ensures { IsTrue result ↔ IsWellFormed class.now }
{
    let names = AttributeNames::new(&class.pool);
    // Numbers that are read are known to fit their bytes.
    let _minor = class.minor;
    let _major = class.major;
    keeps_rules(&names, class) && are_tables(&names, class)
}

/// The same in time linear in the record, times the logarithms that `well_formed` has and that of the number of its texts:
/// where there are many fields or methods, they aren't compared in pairs. `OutOfMemory` where no memory was to be had for
/// that.
pub fn well_formed_by_numbers(alloc: Global, class: &ClassFile) -> Result<bool, OutOfMemory>
    ensures { IfOk result (λ formed. IsTrue formed ↔ IsWellFormed class.now) }
{
    let names = AttributeNames::new(&class.pool);
    // Numbers that are read are known to fit their bytes.
    let _minor = class.minor;
    let _major = class.major;
    Ok(keeps_rules_by_numbers(alloc, &names, class)? && are_tables(&names, class))
}

/// Whether the names of its constants follow their grammars, and the class keeps the rules beyond its tables.
fn keeps_rules(names: &AttributeNames<'_>, class: &ClassFile) -> bool
    requires { class.now.pool ≡ names.now }
    ensures { IsTrue result ↔ (AreNamed class.now.pool × IsClass class.now) }
{
    let constants = names.constants();
    constants.are_named() && is_class(&constants, class)
}

/// The same, with its members compared by the numbers of their texts.
fn keeps_rules_by_numbers(
    alloc: Global,
    names: &AttributeNames<'_>,
    class: &ClassFile,
) -> Result<bool, OutOfMemory>
    requires { class.now.pool ≡ names.now }
    ensures { IfOk result (λ keeps. IsTrue keeps ↔ (AreNamed class.now.pool × IsClass class.now)) }
{
    let constants = names.constants();
    Ok(constants.are_named() && is_class_by_numbers(alloc, &constants, class)?)
}

/// Whether some bytes spell what stands behind the pool of a class.
fn are_tables(names: &AttributeNames<'_>, class: &ClassFile) -> bool
    requires { class.now.pool ≡ names.now }
    ensures { IsTrue result ↔ HasSpelling SpellsTables class.now }
{
    // Numbers that are read are known to fit their bytes.
    let _flags = class.flags.0;
    let _this_class = class.this_class;
    let _super_class = class.super_class;
    is_table(names, class.interfaces.as_slice())
        && is_table(names, class.fields.as_slice())
        && is_table(names, class.methods.as_slice())
}

/// The bytes that spell a record and have nothing to skip (JVMS chapter 4): padding of code is 0, the attributes
/// `ConstantValue`, `Code` and `StackMapTable` stand where the record has what they say and no others do, each by the least
/// index of its name, and a method without frames has no `StackMapTable`.
///
/// Some bytes have to spell the record: `well_formed` tells whether any do, and what `read_class` and `read_any_class` gave
/// always has some. `OutOfMemory` where no memory was to be had. Takes time in the number of bytes.
///
/// The bytes are read back: they spell this record and no other, so that `read_any_class` gives it where its version is one
/// that is taken, and `read_class` does where it also has no item that is left out.
pub fn write_class(alloc: Global, class: &ClassFile) -> Result<Vec<u8>, OutOfMemory>
    requires { IsWellFormed class.now }
    ensures spelled { IfOk result (λ bytes. SpellsClass bytes.items class.now) }
    ensures read_back { IfOk result (λ bytes. (other : AnyClass) → SpellsClass bytes.items other → other ≡ class.now) }
    ensures exact { IfOk result (λ bytes. bytes.items ≡ class_bytes class.now) }
{
    let mut bytes = Vec::new(alloc);
    push_class(&mut bytes, class)?;
    Ok(bytes)
}

/// Writes a class.
fn push_class(bytes: &mut Vec<u8>, class: &ClassFile) -> Result<(), OutOfMemory>
    requires { IsWellFormed class.now }
    ensures { OnOk result (bytes.new.items ≡ bytes.old.items ++ class_bytes class.now) }
{
    let names = AttributeNames::new(&class.pool);
    push_u4(bytes, MAGIC)?;
    push_u2(bytes, class.minor)?;
    push_u2(bytes, class.major)?;
    class.pool.encode_into(bytes)?;
    push_triple(bytes, class.flags.0, class.this_class, class.super_class)?;
    push_table(&names, bytes, class.interfaces.as_slice())?;
    push_table(&names, bytes, class.fields.as_slice())?;
    push_table(&names, bytes, class.methods.as_slice())?;
    push_u2(bytes, 0)
}
