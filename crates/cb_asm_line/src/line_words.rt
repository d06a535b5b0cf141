// The words of lines, read as what they say.
ghost use Rattle.std.specs.Prelude.{◌≡◌, ◌≢◌, ℕ, List, Option, IfOk, MatchOption};
ghost use Rattle.cb_asm_line.specs.Said.{IsNameOr, SaysCatch, SaysClass, SaysField, SaysLimits, SaysMethod, SaysTextOrClass, SaysValue};
ghost use Rattle.cb_asm_line.specs.declared.program.CatchLine.{CatchLine};
ghost use Rattle.cb_asm_line.specs.declared.statement.ClassLine.{ClassLine};
ghost use Rattle.cb_asm_line.specs.declared.program.FieldText.{FieldText};
ghost use Rattle.cb_asm_line.specs.declared.operand.Value.{Value};
ghost use Rattle.cb_asm_line.specs.declared.statement.Limits.{Limits};
ghost use Rattle.cb_asm_line.specs.declared.statement.MethodLine.{MethodLine};

use crate::flag_word::{class_flags_of, field_flags_of, method_flags_of};
use crate::label::label_of;
use crate::mnemonic::is_same;
use crate::number::{int, signed, small};
use crate::word::{name_of, text_of};
use crate::{CatchLine, ClassLine, FieldText, Limits, MethodLine, Value};
use cb_text::Units;
use std::alloc::{AllocError as OutOfMemory, Global};

/// What the words behind `class` say, or `None` where they say nothing.
pub(crate) fn class_line(
    alloc: Global,
    major: &[u8],
    flags: &[u8],
    name: &[u8],
    superclass: &[u8],
) -> Result<Option<ClassLine>, OutOfMemory>
    ensures { IfOk result (λ found. MatchOption found ((line : ClassLine) → SaysClass major.now flags.now name.now superclass.now line → ⊥)
        (λ line. SaysClass major.now flags.now name.now superclass.now line)) }
{
    let Some(major) = small(major) else {
        return Ok(None);
    };
    let Some(flags) = class_flags_of(flags) else {
        return Ok(None);
    };
    let Some(name) = name_of(alloc, name)? else {
        return Ok(None);
    };
    match name_or(alloc, superclass, "-")? {
        Some(superclass) => Ok(Some(ClassLine {
            major,
            flags,
            name,
            superclass,
        })),
        None => Ok(None),
    }
}

/// What the words behind `method` say, or `None` where they say nothing.
pub(crate) fn method_line(
    alloc: Global,
    flags: &[u8],
    name: &[u8],
    descriptor: &[u8],
) -> Result<Option<MethodLine>, OutOfMemory>
    ensures { IfOk result (λ found. MatchOption found ((line : MethodLine) → SaysMethod flags.now name.now descriptor.now line → ⊥)
        (λ line. SaysMethod flags.now name.now descriptor.now line)) }
{
    let Some(flags) = method_flags_of(flags) else {
        return Ok(None);
    };
    let Some(name) = name_of(alloc, name)? else {
        return Ok(None);
    };
    match name_of(alloc, descriptor)? {
        Some(descriptor) => Ok(Some(MethodLine {
            flags,
            name,
            descriptor,
        })),
        None => Ok(None),
    }
}

/// What the words behind `field` say, but for the value, or `None` where they say nothing.
pub(crate) fn field_line(
    alloc: Global,
    flags: &[u8],
    name: &[u8],
    descriptor: &[u8],
    value: Option<Value>,
) -> Result<Option<FieldText>, OutOfMemory>
    ensures { IfOk result (λ found. MatchOption found ((line : FieldText) → SaysField flags.now name.now descriptor.now value line → ⊥)
        (λ line. SaysField flags.now name.now descriptor.now value line)) }
{
    let Some(flags) = field_flags_of(flags) else {
        return Ok(None);
    };
    let Some(name) = name_of(alloc, name)? else {
        return Ok(None);
    };
    match name_of(alloc, descriptor)? {
        Some(descriptor) => Ok(Some(FieldText {
            flags,
            name,
            descriptor,
            value,
        })),
        None => Ok(None),
    }
}

/// The constant of a kind that a word says, or `None` where it says none.
pub(crate) fn value(alloc: Global, kind: &[u8], word: &[u8]) -> Result<Option<Value>, OutOfMemory>
    ensures { IfOk result (λ found. MatchOption found ((value : Value) → SaysValue kind.now word.now value → ⊥)
        (λ value. SaysValue kind.now word.now value)) }
{
    if is_same("int", kind) {
        return match int(word) {
            Some(number) => Ok(Some(Value::Int(number))),
            None => Ok(None),
        };
    }
    if is_same("long", kind) {
        return match signed(word) {
            Some(number) => Ok(Some(Value::Long(number))),
            None => Ok(None),
        };
    }
    text_or_class(alloc, kind, word)
}

/// The string or class that a word says, by its kind, or `None` where it says none.
fn text_or_class(alloc: Global, kind: &[u8], word: &[u8]) -> Result<Option<Value>, OutOfMemory>
    ensures { IfOk result (λ found. MatchOption found ((value : Value) → SaysTextOrClass kind.now word.now value → ⊥)
        (λ value. SaysTextOrClass kind.now word.now value)) }
{
    if is_same("text", kind) {
        return match text_of(alloc, word)? {
            Some(text) => Ok(Some(Value::Text(text))),
            None => Ok(None),
        };
    }
    if is_same("class", kind) {
        return match name_of(alloc, word)? {
            Some(name) => Ok(Some(Value::Class(name))),
            None => Ok(None),
        };
    }
    Ok(None)
}

/// What the words behind `limits` say, or `None` where they say nothing.
pub(crate) fn limits(stack: &[u8], locals: &[u8]) -> Option<Limits>
    ensures { MatchOption result ((line : Limits) → SaysLimits stack.now locals.now line → ⊥)
        (λ line. SaysLimits stack.now locals.now line) }
{
    let stack = small(stack)?;
    let locals = small(locals)?;
    Some(Limits { stack, locals })
}

/// What the words behind `catch` say, or `None` where they say nothing.
pub(crate) fn catch_line(
    alloc: Global,
    start: &[u8],
    end: &[u8],
    handler: &[u8],
    class: &[u8],
) -> Result<Option<CatchLine>, OutOfMemory>
    ensures { IfOk result (λ found. MatchOption found ((line : CatchLine) → SaysCatch start.now end.now handler.now class.now line → ⊥)
        (λ line. SaysCatch start.now end.now handler.now class.now line)) }
{
    let Some(start) = label_of(alloc, start)? else {
        return Ok(None);
    };
    let Some(end) = label_of(alloc, end)? else {
        return Ok(None);
    };
    let Some(handler) = label_of(alloc, handler)? else {
        return Ok(None);
    };
    match name_or(alloc, class, "any")? {
        Some(class) => Ok(Some(CatchLine {
            start,
            end,
            handler,
            class,
        })),
        None => Ok(None),
    }
}

/// The name that a word is, or that there is none, where the word is what stands in its place.
fn name_or(alloc: Global, word: &[u8], none: &str) -> Result<Option<Option<Units>>, OutOfMemory>
    ensures { IfOk result (λ found. MatchOption found ((name : Option (List ℕ)) → IsNameOr none.now word.now name → ⊥)
        (λ name. IsNameOr none.now word.now name)) }
{
    if is_same(none, word) {
        return Ok(Some(None));
    }
    match name_of(alloc, word)? {
        Some(name) => Ok(Some(Some(name))),
        None => Ok(None),
    }
}
