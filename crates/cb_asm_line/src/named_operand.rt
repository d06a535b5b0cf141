// The operands that name a constant, read.
ghost use Rattle.std.specs.Prelude.{◌≡◌, ℕ, List, Option, map, IfOk, MatchOption};
ghost use Rattle.cb_asm_line.specs.Said.{IsName, One, SaysValue, Three, Two};
ghost use Rattle.cb_asm_line.specs.SaidCode.{Has, SaysAnyMethod, SaysInterface, SaysKind, SaysMember, SaysNamed};
ghost use Rattle.cb_asm_line.specs.declared.operand.MemberText.{MemberText as AnyMember};
ghost use Rattle.cb_asm_line.specs.declared.operand.Operand.{Operand as AnyOperand};
ghost use Rattle.cb_asm_line.specs.declared.operand.Operand.TheVariants as operands;
ghost use Rattle.cb_text.specs.declared.naming.MemberKind.TheVariants as kinds;

use crate::arity::{front, three};
use crate::lines_said::{interface_of, some_value};
use crate::mnemonic::is_same;
use crate::word::name_of;
use crate::{MemberText, Operand};
use cb_classfile::ConstantKind;
use cb_text::MemberKind;
use std::alloc::{AllocError as OutOfMemory, Global};

/// The operand that names a constant of a kind, if there is one.
pub(crate) fn kind_operand(
    alloc: Global,
    kind: Option<ConstantKind>,
    words: &[&[u8]],
) -> Result<Option<Operand>, OutOfMemory>
    ensures { IfOk result (λ found. MatchOption found ((operand : AnyOperand) → SaysKind kind (map (λ word. word.now) words.now) operand → ⊥)
        (λ operand. SaysKind kind (map (λ word. word.now) words.now) operand)) }
{
    match kind {
        Some(kind) => named_operand(alloc, kind, words),
        None => Ok(None),
    }
}

/// The operand that names a constant of a kind.
fn named_operand(
    alloc: Global,
    kind: ConstantKind,
    words: &[&[u8]],
) -> Result<Option<Operand>, OutOfMemory>
    ensures { IfOk result (λ found. MatchOption found ((operand : AnyOperand) → SaysNamed kind (map (λ word. word.now) words.now) operand → ⊥)
        (λ operand. SaysNamed kind (map (λ word. word.now) words.now) operand)) }
{
    match kind {
        ConstantKind::Loadable => load_operand(alloc, words),
        ConstantKind::Wide => load_operand(alloc, words),
        ConstantKind::Class => class_operand(alloc, words),
        ConstantKind::Field => member_operand(alloc, MemberKind::Field, words),
        ConstantKind::ClassMethod => member_operand(alloc, MemberKind::Method, words),
        ConstantKind::AnyMethod => method_operand(alloc, words),
        ConstantKind::InterfaceMethod => interface_operand(alloc, words),
        ConstantKind::Dynamic => Ok(None),
    }
}

/// A constant that is loaded.
fn load_operand(alloc: Global, words: &[&[u8]]) -> Result<Option<Operand>, OutOfMemory>
    ensures { IfOk result (λ found. MatchOption found ((operand : AnyOperand) → Has operands.Load (Two SaysValue) (map (λ word. word.now) words.now) operand → ⊥)
        (λ operand. Has operands.Load (Two SaysValue) (map (λ word. word.now) words.now) operand)) }
{
    match some_value(alloc, words)? {
        Some(value) => Ok(Some(Operand::Load(value))),
        None => Ok(None),
    }
}

/// A class.
fn class_operand(alloc: Global, words: &[&[u8]]) -> Result<Option<Operand>, OutOfMemory>
    ensures { IfOk result (λ found. MatchOption found ((operand : AnyOperand) → Has operands.Class (One IsName) (map (λ word. word.now) words.now) operand → ⊥)
        (λ operand. Has operands.Class (One IsName) (map (λ word. word.now) words.now) operand)) }
{
    match interface_of(alloc, words)? {
        Some(name) => Ok(Some(Operand::Class(name))),
        None => Ok(None),
    }
}

/// A member without a word before it.
fn member_operand(
    alloc: Global,
    kind: MemberKind,
    words: &[&[u8]],
) -> Result<Option<Operand>, OutOfMemory>
    ensures { IfOk result (λ found. MatchOption found ((operand : AnyOperand) → Has operands.Member (Three (SaysMember kind)) (map (λ word. word.now) words.now) operand → ⊥)
        (λ operand. Has operands.Member (Three (SaysMember kind)) (map (λ word. word.now) words.now) operand)) }
{
    match member_of(alloc, kind, words)? {
        Some(member) => Ok(Some(Operand::Member(member))),
        None => Ok(None),
    }
}

/// A method of an interface.
fn interface_operand(alloc: Global, words: &[&[u8]]) -> Result<Option<Operand>, OutOfMemory>
    ensures { IfOk result (λ found. MatchOption found ((operand : AnyOperand) → Has operands.Member SaysInterface (map (λ word. word.now) words.now) operand → ⊥)
        (λ operand. Has operands.Member SaysInterface (map (λ word. word.now) words.now) operand)) }
{
    match interface_member(alloc, words)? {
        Some(member) => Ok(Some(Operand::Member(member))),
        None => Ok(None),
    }
}

/// A method of a class or of an interface.
fn method_operand(alloc: Global, words: &[&[u8]]) -> Result<Option<Operand>, OutOfMemory>
    ensures { IfOk result (λ found. MatchOption found ((operand : AnyOperand) → Has operands.Member SaysAnyMethod (map (λ word. word.now) words.now) operand → ⊥)
        (λ operand. Has operands.Member SaysAnyMethod (map (λ word. word.now) words.now) operand)) }
{
    match any_method(alloc, words)? {
        Some(member) => Ok(Some(Operand::Member(member))),
        None => Ok(None),
    }
}

/// The method of a class or of an interface that the words say.
fn any_method(alloc: Global, words: &[&[u8]]) -> Result<Option<MemberText>, OutOfMemory>
    ensures { IfOk result (λ found. MatchOption found ((member : AnyMember) → SaysAnyMethod (map (λ word. word.now) words.now) member → ⊥)
        (λ member. SaysAnyMethod (map (λ word. word.now) words.now) member)) }
{
    if let Some(member) = interface_member(alloc, words)? {
        return Ok(Some(member));
    }
    match member_of(alloc, MemberKind::Method, words)? {
        Some(member) => Ok(Some(member)),
        None => Ok(None),
    }
}

/// The method of an interface that the words say.
fn interface_member(alloc: Global, words: &[&[u8]]) -> Result<Option<MemberText>, OutOfMemory>
    ensures { IfOk result (λ found. MatchOption found ((member : AnyMember) → SaysInterface (map (λ word. word.now) words.now) member → ⊥)
        (λ member. SaysInterface (map (λ word. word.now) words.now) member)) }
{
    let Some((key, rest)) = front(words) else {
        return Ok(None);
    };
    if !is_same("interface", key) {
        return Ok(None);
    }
    match member_of(alloc, MemberKind::InterfaceMethod, rest)? {
        Some(member) => Ok(Some(member)),
        None => Ok(None),
    }
}

/// The member of a kind that three words say.
fn member_of(
    alloc: Global,
    kind: MemberKind,
    words: &[&[u8]],
) -> Result<Option<MemberText>, OutOfMemory>
    ensures { IfOk result (λ found. MatchOption found ((member : AnyMember) → Three (SaysMember kind) (map (λ word. word.now) words.now) member → ⊥)
        (λ member. Three (SaysMember kind) (map (λ word. word.now) words.now) member)) }
{
    match three(words) {
        Some((class, name, descriptor)) => member_line(alloc, kind, class, name, descriptor),
        None => Ok(None),
    }
}

/// The same by the three words.
fn member_line(
    alloc: Global,
    kind: MemberKind,
    class: &[u8],
    name: &[u8],
    descriptor: &[u8],
) -> Result<Option<MemberText>, OutOfMemory>
    ensures { IfOk result (λ found. MatchOption found ((member : AnyMember) → SaysMember kind class.now name.now descriptor.now member → ⊥)
        (λ member. SaysMember kind class.now name.now descriptor.now member)) }
{
    let Some(class) = name_of(alloc, class)? else {
        return Ok(None);
    };
    let Some(name) = name_of(alloc, name)? else {
        return Ok(None);
    };
    match name_of(alloc, descriptor)? {
        Some(descriptor) => Ok(Some(MemberText {
            kind,
            class,
            name,
            descriptor,
        })),
        None => Ok(None),
    }
}
