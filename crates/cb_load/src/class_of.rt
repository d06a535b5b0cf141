// The class of a file.
ghost use Rattle.std.specs.Prelude.{◌≡◌, ◌≤◌, ◌↔◌, length, IfOk, IsTrue, MatchResult, Some};
ghost use Rattle.cb_classfile.specs.Answers.{IsAcceptedClass};
ghost use Rattle.cb_classfile.specs.Pool.{class_at};
ghost use Rattle.cb_classfile.specs.Profile.{unsupported};
ghost use Rattle.cb_load.specs.Loading.{IsClassOf, file_limit};
ghost use Rattle.cb_load.specs.InnerTurns.{IsNoClassOf};

use cb_classfile::{
    ClassFile, Constants, Feature, ReadFault, facts_of, read_any_class, unsupported_in,
};
use cb_link::{Refusal, units_of};
use std::alloc::{AllocError, Global};

/// The class of this name that the bytes of a file are, of which this machine leaves nothing out. Takes time in the number
/// of bytes, times its logarithm.
pub(crate) fn class_of(alloc: Global, name: &[u16], bytes: &[u8]) -> Result<ClassFile, Refusal>
    requires { length bytes.now ≤ file_limit }
    ensures { MatchResult result (IsClassOf name.now bytes.now) (IsNoClassOf name.now bytes.now) }
{
    let class = named_class_of(alloc, name, bytes)?;
    match left_out(alloc, &class)? {
        Some(item) => Err(Refusal::Unsupported {
            class: units_of(alloc, name)?,
            item,
        }),
        None => Ok(class),
    }
}

/// The class of this name that the bytes are.
fn named_class_of(alloc: Global, name: &[u16], bytes: &[u8]) -> Result<ClassFile, Refusal>
    ensures { MatchResult result (λ class. IsAcceptedClass bytes.now class
        × (class_at class.pool class.this_class ≡ Some name.now)) (IsNoClassOf name.now bytes.now) }
{
    match read_any_class(alloc, bytes) {
        Ok(class) if is_named(&class, name) => Ok(class),
        Ok(_) => Err(Refusal::Malformed {
            class: units_of(alloc, name)?,
        }),
        Err(ReadFault::Malformed) => Err(Refusal::Malformed {
            class: units_of(alloc, name)?,
        }),
        Err(ReadFault::BadVersion { major }) => Err(Refusal::BadVersion {
            class: units_of(alloc, name)?,
            major,
        }),
        Err(ReadFault::OutOfMemory) => Err(Refusal::OutOfMemory),
    }
}

/// The first item of a class that this machine leaves out, if there is one.
fn left_out(alloc: Global, class: &ClassFile) -> Result<Option<Feature>, AllocError>
    ensures { IfOk result (λ item. item ≡ unsupported class.now) }
{
    let facts = facts_of(alloc, &class.pool)?;
    Ok(unsupported_in(&Constants::described(&class.pool, &facts), class))
}

/// Whether this is the name of the class.
fn is_named(class: &ClassFile, name: &[u16]) -> bool
    ensures { IsTrue result ↔ (class_at class.now.pool class.now.this_class ≡ Some name.now) }
{
    match class.pool.class(class.this_class) {
        Some(own) => own == name,
        None => false,
    }
}
