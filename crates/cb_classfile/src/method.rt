// Methods (JVMS §4.6).
ghost use Rattle.std.specs.Prelude.{◌≡◌, ◌↔◌, ℕ, IsTrue, Some, codes, List as Items};
ghost use Rattle.cb_classfile.specs.Attributes.{IsTold, SpellsOnce};
ghost use Rattle.cb_classfile.specs.Code.{SpellsBody};
ghost use Rattle.cb_classfile.specs.Flags.{acc_abstract, HasFlag};
ghost use Rattle.cb_classfile.specs.Members.{IsMethod, HasCodeWhereAsked, HasFewWords, IsInitialiser, MayBeAbstract};
ghost use Rattle.cb_classfile.specs.Pool.{HasText, text_at};
ghost use Rattle.cb_classfile.specs.Reading.{ReadsWhole};

use crate::ascii::has_text;
use crate::attribute::Occurrence;
use crate::body::body_of;
use crate::constants::Constants;
use crate::fault::Fault;
use crate::member::member_at;
use crate::table::Entry;
use crate::{Body, MethodFlags};
use bitflags::Flags;
use cb_plain::List;
use std::alloc::Global;

/// A method (JVMS §4.6). Its indices are those of the constant pool.
#[derive(Debug, Drop)]
pub struct Method {
    /// The access flags.
    pub flags: MethodFlags,
    /// The index of the name.
    pub name: u16,
    /// The index of the descriptor.
    pub descriptor: u16,
    /// What its attribute `Code` says, where it has one (§4.7.3).
    pub body: Option<Body>,
}

/// The methods of a class.
pub type Methods = List<Method>;

impl Entry for Method {
    ghost use Rattle.cb_classfile.specs.Members.{SpellsMethod};

    ghost spells = { SpellsMethod };

    fn read<'a>(
        alloc: Global,
        constants: &Constants<'_>,
        bytes: &'a [u8],
    ) -> Result<(Method, &'a [u8]), Fault> {
        let (member, rest) = member_at(constants, b"Code", bytes)?;
        if !constants.names_method(member.name, member.descriptor) {
            return Err(Fault::Malformed);
        }
        let body = body_in(alloc, constants, member.occurrence)?;
        let method = Method {
            flags: MethodFlags(member.flags),
            name: member.name,
            descriptor: member.descriptor,
            body,
        };
        if !is_method(constants, &method) {
            return Err(Fault::Malformed);
        }
        Ok((method, rest))
    }
}

/// The body in the attribute `Code` of a method, if it has one.
fn body_in(
    alloc: Global,
    constants: &Constants<'_>,
    occurrence: Occurrence<'_>,
) -> Result<Option<Body>, Fault>
    ensures { (contents : Items (Items ℕ)) → IsTold occurrence.entry contents
        → ReadsWhole (SpellsOnce (SpellsBody constants.now)) contents result }
{
    match occurrence {
        Occurrence::Never => Ok(None),
        Occurrence::Once(contents) => Ok(Some(body_of(alloc, constants, contents)?)),
        Occurrence::Again => Err(Fault::Malformed),
    }
}

/// Whether a method keeps the rules on flags, names and code that are asked beyond its tables (JVMS §4.3.3, §4.6,
/// §4.7.3).
pub fn is_method(constants: &Constants<'_>, method: &Method) -> bool
    ensures { IsTrue result ↔ IsMethod constants.now method.now }
{
    has_few_words(constants, method)
        && has_code_where_asked(method)
        && is_abstract_where_allowed(constants, method)
        && is_initialiser_where_named(constants, method)
}

/// Whether its parameters and `this` take at most 255 words (JVMS §4.3.3).
fn has_few_words(constants: &Constants<'_>, method: &Method) -> bool
    ensures { IsTrue result ↔ HasText constants.now method.now.descriptor (HasFewWords method.now.flags.0) }
{
    match constants.parameter_words(method.descriptor) {
        Some(words) => method.flags.contains(MethodFlags::STATIC) || words < 255,
        None => false,
    }
}

/// Whether it has code exactly where it is neither abstract nor native (JVMS §4.7.3).
fn has_code_where_asked(method: &Method) -> bool
    ensures { IsTrue result ↔ HasCodeWhereAsked method.now }
{
    let without = method.flags.contains(MethodFlags::ABSTRACT)
        || method.flags.contains(MethodFlags::NATIVE);
    method.body.is_some() != without
}

/// Whether it isn't both abstract and static or a constructor (JVMS §4.6).
fn is_abstract_where_allowed(constants: &Constants<'_>, method: &Method) -> bool
    ensures { IsTrue result ↔ (HasFlag method.now.flags.0 acc_abstract → MayBeAbstract constants.now method.now) }
{
    !method.flags.contains(MethodFlags::ABSTRACT)
        || !method.flags.contains(MethodFlags::STATIC)
            && !has_text(constants, method.name, b"<init>")
}

/// Whether a class initialiser is static, takes and gives nothing and has code.
fn is_initialiser_where_named(constants: &Constants<'_>, method: &Method) -> bool
    ensures { IsTrue result ↔ (text_at constants.now method.now.name ≡ Some (codes "<clinit>")
        → IsInitialiser constants.now method.now) }
{
    !has_text(constants, method.name, b"<clinit>")
        || method.flags.contains(MethodFlags::STATIC)
            && has_text(constants, method.descriptor, b"()V")
            && method.body.is_some()
}
