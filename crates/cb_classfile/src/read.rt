// The readers of class files (JVMS §4.1).
ghost use Rattle.std.specs.Prelude.{◌≡◌, ◌↔◌, ℕ, IfOk, IsTrue, IsErrOf, MatchOption, MatchResult, None, Some, List as Items};
ghost use Rattle.cb_text.specs.Pool.{SpellsPool};
ghost use Rattle.cb_classfile.specs.Answers.{IsAcceptedClass, Stands, StandsUnread};
ghost use Rattle.cb_classfile.specs.Class.{HasVersion, IsAccepted, IsClass, SpellsClass, SpellsClassOf, SpellsClassOn, SpellsVersion};
ghost use Rattle.cb_classfile.specs.Pool.{AreNamed};
ghost use Rattle.cb_classfile.specs.Profile.{unsupported};
ghost use Rattle.cb_classfile.specs.Reading.{IsFront, Reads, ReadsWhole, TellsWhole};
ghost use Rattle.cb_classfile.specs.Tables.{BeginsWith};
ghost use Rattle.cb_classfile.specs.Texts.{Describe};
ghost use Rattle.cb_classfile.specs.declared.class.ClassFile.{ClassFile as AnyClass};
ghost use Rattle.cb_classfile.specs.declared.feature.Feature.{Feature as AnyFeature};

use crate::attribute::all_attributes_named;
use crate::class_rules::is_class_by_numbers;
use crate::constants::Constants;
use crate::fault::Fault;
use crate::numbers::triple_at;
use crate::profile::unsupported_in;
use crate::table::table;
use crate::texts::{TextFacts, facts_of};
use crate::{ClassFault, ClassFile, ClassFlags, ReadFault};
use cb_text::{Pool, read_pool};
use std::alloc::{AllocError, Global};

/// The four bytes with which a class file begins (JVMS §4.1).
const MAGIC: u32 = 0xCAFE_BABE;

/// The record of the class that the bytes spell, if this machine takes it (JVMS chapter 4): what `read_any_class` gives,
/// where `unsupported` finds no item in it.
///
/// `BadVersion` exactly where the bytes begin as a class file does and have a major version other than 50, 51 and 52,
/// whatever stands behind it. Else `Malformed` exactly where they spell no class, and `Unsupported` exactly where they
/// spell one that has an item which this machine leaves out, with the first such item: in the pool by index, then in
/// the descriptors of the fields, then in the methods. `OutOfMemory` where no memory was to be had. Takes time in the
/// number of bytes, times its logarithm.
pub fn read_class(alloc: Global, bytes: &[u8]) -> Result<ClassFile, ClassFault>
    ensures class { IfOk result (λ class. SpellsClass bytes.now class × IsAccepted class.major × (unsupported class ≡ None)) }
    ensures exact { (class : AnyClass) → SpellsClass bytes.now class → IsAccepted class.major → unsupported class ≡ None
        → MatchResult result (λ read. read ≡ class) (λ fault. fault ≡ ClassFault.OutOfMemory) }
    ensures bad_version { (major : ℕ) → IsErrOf result (ClassFault.BadVersion major)
        ↔ (HasVersion bytes.now major × (¬ IsAccepted major)) }
    ensures malformed { IsErrOf result ClassFault.Malformed ↔ ((¬ IsErrOf result ClassFault.OutOfMemory)
        × ((class : AnyClass) → ¬ SpellsClass bytes.now class)
        × ((major : ℕ) → HasVersion bytes.now major → IsAccepted major)) }
    ensures unsupported { (item : AnyFeature) → IsErrOf result (ClassFault.Unsupported item)
        ↔ ((¬ IsErrOf result ClassFault.OutOfMemory) × ((class : AnyClass) × SpellsClass bytes.now class
        × IsAccepted class.major × (unsupported class ≡ Some item))) }
{
    supported_or_fault(alloc, bytes)
}

/// The record of the class that the bytes spell (JVMS chapter 4), also where it has an item that this machine leaves out.
///
/// `BadVersion` exactly where the bytes begin as a class file does and have a major version other than 50, 51 and 52,
/// whatever stands behind it. Else `Malformed` exactly where they spell no class. `OutOfMemory` where no memory was to be
/// had. Takes time in the number of bytes, times its logarithm.
pub fn read_any_class(alloc: Global, bytes: &[u8]) -> Result<ClassFile, ReadFault>
    ensures class { IfOk result (λ class. SpellsClass bytes.now class × IsAccepted class.major) }
    ensures exact { (class : AnyClass) → SpellsClass bytes.now class → IsAccepted class.major
        → MatchResult result (λ read. read ≡ class) (λ fault. fault ≡ ReadFault.OutOfMemory) }
    ensures bad_version { (major : ℕ) → IsErrOf result (ReadFault.BadVersion major)
        ↔ (HasVersion bytes.now major × (¬ IsAccepted major)) }
    ensures malformed { IsErrOf result ReadFault.Malformed ↔ ((¬ IsErrOf result ReadFault.OutOfMemory)
        × ((class : AnyClass) → ¬ SpellsClass bytes.now class)
        × ((major : ℕ) → HasVersion bytes.now major → IsAccepted major)) }
{
    any_or_fault(alloc, bytes)
}

/// The record of any class, or a fault that stands in the bytes: the public clauses follow from this one, since bytes
/// have one version and spell one class.
fn any_or_fault(alloc: Global, bytes: &[u8]) -> Result<ClassFile, ReadFault>
    ensures { MatchResult result (IsAcceptedClass bytes.now) (StandsUnread bytes.now) }
{
    let (class, _facts) = class_or_fault(alloc, bytes)?;
    Ok(class)
}

/// The record of a class that has no item which this machine leaves out, or a fault that stands in the bytes.
fn supported_or_fault(alloc: Global, bytes: &[u8]) -> Result<ClassFile, ClassFault>
    ensures { MatchResult result (λ class. IsAcceptedClass bytes.now class × (unsupported class ≡ None)) (Stands bytes.now) }
{
    let (class, facts) = class_or_fault(alloc, bytes)?;
    match unsupported_in(&Constants::described(&class.pool, &facts), &class) {
        Some(item) => Err(ClassFault::Unsupported { item }),
        None => Ok(class),
    }
}

/// The record of any class and what its texts are, or a fault that stands in the bytes.
fn class_or_fault(
    alloc: Global,
    bytes: &[u8],
) -> Result<(ClassFile, Vec<Option<TextFacts>>), ReadFault>
    ensures { MatchResult result (λ read. IsAcceptedClass bytes.now read.0 × Describe read.0.pool read.1.items)
        (StandsUnread bytes.now) }
{
    let Some(((minor, major), rest)) = version_at(bytes) else {
        return Err(ReadFault::Malformed);
    };
    if !is_accepted(major) {
        return Err(ReadFault::BadVersion { major });
    }
    let read = contents_of(alloc, minor, major, rest)?;
    Ok(read)
}

/// Whether the version is that of Java SE 6, 7 or 8.
fn is_accepted(major: u16) -> bool
    ensures { IsTrue result ↔ IsAccepted major }
{
    matches!(major, 50..=52)
}

/// What stands behind the version, and what its texts are: the record of a class of this version.
fn contents_of(
    alloc: Global,
    minor: u16,
    major: u16,
    bytes: &[u8],
) -> Result<(ClassFile, Vec<Option<TextFacts>>), Fault>
    ensures { TellsWhole (SpellsClassOf minor major)
        (λ told class. (told.0 ≡ class) × Describe class.pool told.1.items) bytes.now result }
{
    let (pool, rest) = pool_at(alloc, bytes)?;
    let facts = facts_of(alloc, &pool)?;
    let class = tables_of(alloc, minor, major, pool, &facts, rest)?;
    if !keeps_rules(alloc, &facts, &class)? {
        return Err(Fault::Malformed);
    }
    Ok((class, facts))
}

/// Whether the constants of a class have names and descriptors by their grammars, and it keeps the rules beyond its
/// tables.
fn keeps_rules(
    alloc: Global,
    facts: &[Option<TextFacts>],
    class: &ClassFile,
) -> Result<bool, AllocError>
    requires { Describe class.now.pool facts.now }
    ensures { IfOk result (λ keeps. IsTrue keeps ↔ (AreNamed class.now.pool × IsClass class.now)) }
{
    let constants = Constants::described(&class.pool, facts);
    Ok(constants.are_named() && is_class_by_numbers(alloc, &constants, class)?)
}

/// The record of a class of this version and pool, by the tables behind the pool.
fn tables_of(
    alloc: Global,
    minor: u16,
    major: u16,
    pool: Pool,
    facts: &[Option<TextFacts>],
    bytes: &[u8],
) -> Result<ClassFile, Fault>
    requires { Describe pool facts.now }
    ensures { ReadsWhole (SpellsClassOn minor major pool) bytes.now result }
{
    let constants = Constants::described(&pool, facts);
    let ((flags, this_class, super_class), rest) = triple_at(bytes)?;
    let (interfaces, rest) = table(alloc, &constants, rest)?;
    let (fields, rest) = table(alloc, &constants, rest)?;
    let (methods, rest) = table(alloc, &constants, rest)?;
    let _skipped = all_attributes_named(&constants, b"", rest)?;
    Ok(ClassFile {
        minor,
        major,
        pool,
        flags: ClassFlags(flags),
        this_class,
        super_class,
        interfaces,
        fields,
        methods,
    })
}

/// The pool at the front, and what stands behind it.
fn pool_at(alloc: Global, bytes: &[u8]) -> Result<(Pool, &[u8]), Fault>
    ensures { Reads SpellsPool bytes.now result }
{
    let (pool, end) = read_pool(alloc, bytes)?;
    Ok((pool, &bytes[end..]))
}

/// The minor and the major version behind the magic number, and what stands behind them, or `None` where no class file
/// begins.
fn version_at(bytes: &[u8]) -> Option<((u16, u16), &[u8])>
    ensures { MatchOption result ((version : ℕ × ℕ) (rest : Items ℕ) → BeginsWith SpellsVersion bytes.now version rest → ⊥)
        (λ read. IsFront SpellsVersion bytes.now read.0 read.1.now) }
{
    match bytes {
        [a, b, c, d, e, f, g, h, rest @ ..] if u32::from_be_bytes([*a, *b, *c, *d]) == MAGIC => {
            let minor = u16::from_be_bytes([*e, *f]);
            let major = u16::from_be_bytes([*g, *h]);
            Some(((minor, major), rest))
        }
        _ => None,
    }
}
