// Lines of each kind, by the words behind the first.
ghost use Rattle.std.specs.Prelude.{◌≡◌, ◌≢◌, ℕ, List, Option, map, IfOk, MatchOption};
ghost use Rattle.cb_asm_line.specs.Said.{Four, IsField, IsName, One, SaysCatch, SaysClass, SaysLimits, SaysMethod, SaysOptional, SaysValue, Three, Two};
ghost use Rattle.cb_asm_line.specs.declared.program.CatchLine.{CatchLine};
ghost use Rattle.cb_asm_line.specs.declared.statement.ClassLine.{ClassLine};
ghost use Rattle.cb_asm_line.specs.declared.program.FieldText.{FieldText};
ghost use Rattle.cb_asm_line.specs.declared.operand.Value.{Value};
ghost use Rattle.cb_asm_line.specs.declared.statement.Limits.{Limits};
ghost use Rattle.cb_asm_line.specs.declared.statement.MethodLine.{MethodLine};

use crate::arity::{four, front, one, three, two};
use crate::line_words::{catch_line, class_line, field_line, limits, method_line, value};
use crate::word::name_of;
use crate::{CatchLine, ClassLine, FieldText, Limits, MethodLine, Value};
use cb_text::Units;
use std::alloc::{AllocError as OutOfMemory, Global};

/// The line of a class.
pub(crate) fn class_of(alloc: Global, words: &[&[u8]]) -> Result<Option<ClassLine>, OutOfMemory>
    ensures { IfOk result (λ found. MatchOption found ((line : ClassLine) → Four SaysClass (map (λ word. word.now) words.now) line → ⊥)
        (λ line. Four SaysClass (map (λ word. word.now) words.now) line)) }
{
    match four(words) {
        Some((major, flags, name, superclass)) => class_line(alloc, major, flags, name, superclass),
        None => Ok(None),
    }
}

/// The name of an interface of a class.
pub(crate) fn interface_of(alloc: Global, words: &[&[u8]]) -> Result<Option<Units>, OutOfMemory>
    ensures { IfOk result (λ found. MatchOption found ((name : List ℕ) → One IsName (map (λ word. word.now) words.now) name → ⊥)
        (λ name. One IsName (map (λ word. word.now) words.now) name)) }
{
    match one(words) {
        Some(name) => name_of(alloc, name),
        None => Ok(None),
    }
}

/// The line of a method.
pub(crate) fn method_of(alloc: Global, words: &[&[u8]]) -> Result<Option<MethodLine>, OutOfMemory>
    ensures { IfOk result (λ found. MatchOption found ((line : MethodLine) → Three SaysMethod (map (λ word. word.now) words.now) line → ⊥)
        (λ line. Three SaysMethod (map (λ word. word.now) words.now) line)) }
{
    match three(words) {
        Some((flags, name, descriptor)) => method_line(alloc, flags, name, descriptor),
        None => Ok(None),
    }
}

/// The limits of a code.
pub(crate) fn limits_of(words: &[&[u8]]) -> Option<Limits>
    ensures { MatchOption result ((line : Limits) → Two SaysLimits (map (λ word. word.now) words.now) line → ⊥)
        (λ line. Two SaysLimits (map (λ word. word.now) words.now) line) }
{
    match two(words) {
        Some((stack, locals)) => limits(stack, locals),
        None => None,
    }
}

/// An entry of the exception table.
pub(crate) fn catch_of(alloc: Global, words: &[&[u8]]) -> Result<Option<CatchLine>, OutOfMemory>
    ensures { IfOk result (λ found. MatchOption found ((line : CatchLine) → Four SaysCatch (map (λ word. word.now) words.now) line → ⊥)
        (λ line. Four SaysCatch (map (λ word. word.now) words.now) line)) }
{
    match four(words) {
        Some((start, end, handler, class)) => catch_line(alloc, start, end, handler, class),
        None => Ok(None),
    }
}

/// The line of a field.
pub(crate) fn field_of(alloc: Global, words: &[&[u8]]) -> Result<Option<FieldText>, OutOfMemory>
    ensures { IfOk result (λ found. MatchOption found ((line : FieldText) → IsField (map (λ word. word.now) words.now) line → ⊥)
        (λ line. IsField (map (λ word. word.now) words.now) line)) }
{
    let Some((flags, rest)) = front(words) else {
        return Ok(None);
    };
    let Some((name, rest)) = front(rest) else {
        return Ok(None);
    };
    let Some((descriptor, rest)) = front(rest) else {
        return Ok(None);
    };
    match value_of(alloc, rest)? {
        Some(value) => field_line(alloc, flags, name, descriptor, value),
        None => Ok(None),
    }
}

/// The constant of a field, or that there is none.
fn value_of(alloc: Global, words: &[&[u8]]) -> Result<Option<Option<Value>>, OutOfMemory>
    ensures { IfOk result (λ found. MatchOption found ((given : Option Value) → SaysOptional (map (λ word. word.now) words.now) given → ⊥)
        (λ given. SaysOptional (map (λ word. word.now) words.now) given)) }
{
    if words.is_empty() {
        return Ok(Some(None));
    }
    match some_value(alloc, words)? {
        Some(value) => Ok(Some(Some(value))),
        None => Ok(None),
    }
}

/// The constant that two words say.
pub(crate) fn some_value(alloc: Global, words: &[&[u8]]) -> Result<Option<Value>, OutOfMemory>
    ensures { IfOk result (λ found. MatchOption found ((value : Value) → Two SaysValue (map (λ word. word.now) words.now) value → ⊥)
        (λ value. Two SaysValue (map (λ word. word.now) words.now) value)) }
{
    match two(words) {
        Some((kind, word)) => value(alloc, kind, word),
        None => Ok(None),
    }
}
