// What the words of a line say.
ghost use Rattle.std.specs.Prelude.{◌≡◌, map, IfOk, MatchOption};
ghost use Rattle.cb_asm_line.specs.SaidLines.{IsSpelled, Says, SaysAtKey, SaysCodeLine, SaysFrameLine, SaysInside, SaysKeyed, SaysOutside};
ghost use Rattle.cb_asm_line.specs.declared.statement.Statement.{Statement as AnyStatement};

use crate::Statement;
use crate::arity::front;
use crate::frame_words::frame_of;
use crate::instruction_words::code_of;
use crate::lines_said::{catch_of, class_of, field_of, interface_of, limits_of, method_of};
use crate::mnemonic::is_same;
use std::alloc::{AllocError as OutOfMemory, Global};

/// What the words of a line say, or `None` where they say nothing.
pub(crate) fn statement_of(alloc: Global, words: &[&[u8]]) -> Result<Option<Statement>, OutOfMemory>
    ensures { IfOk result (λ found. MatchOption found ((statement : AnyStatement) → IsSpelled (map (λ word. word.now) words.now) statement → ⊥)
        (λ statement. IsSpelled (map (λ word. word.now) words.now) statement)) }
{
    said(alloc, words)
}

/// The same, by what the words are.
fn said(alloc: Global, words: &[&[u8]]) -> Result<Option<Statement>, OutOfMemory>
    ensures { IfOk result (λ found. MatchOption found ((statement : AnyStatement) → Says (map (λ word. word.now) words.now) statement → ⊥)
        (λ statement. Says (map (λ word. word.now) words.now) statement)) }
{
    if let Some(statement) = at_key(alloc, words)? {
        return Ok(Some(statement));
    }
    match code_line(alloc, words)? {
        Some(statement) => Ok(Some(statement)),
        None => Ok(None),
    }
}

/// The line of code that they say.
fn code_line(alloc: Global, words: &[&[u8]]) -> Result<Option<Statement>, OutOfMemory>
    ensures { IfOk result (λ found. MatchOption found ((statement : AnyStatement) → SaysCodeLine (map (λ word. word.now) words.now) statement → ⊥)
        (λ statement. SaysCodeLine (map (λ word. word.now) words.now) statement)) }
{
    match code_of(alloc, words)? {
        Some(line) => Ok(Some(Statement::Code(line))),
        None => Ok(None),
    }
}

/// What they say by the first of them.
fn at_key(alloc: Global, words: &[&[u8]]) -> Result<Option<Statement>, OutOfMemory>
    ensures { IfOk result (λ found. MatchOption found ((statement : AnyStatement) → SaysAtKey (map (λ word. word.now) words.now) statement → ⊥)
        (λ statement. SaysAtKey (map (λ word. word.now) words.now) statement)) }
{
    let Some((key, rest)) = front(words) else {
        return Ok(None);
    };
    match keyed(alloc, key, rest)? {
        Some(statement) => Ok(Some(statement)),
        None => Ok(None),
    }
}

/// The same by the first word and those behind it.
fn keyed(alloc: Global, key: &[u8], rest: &[&[u8]]) -> Result<Option<Statement>, OutOfMemory>
    ensures { IfOk result (λ found. MatchOption found ((statement : AnyStatement) → SaysKeyed key.now (map (λ word. word.now) rest.now) statement → ⊥)
        (λ statement. SaysKeyed key.now (map (λ word. word.now) rest.now) statement)) }
{
    if let Some(statement) = outside(alloc, key, rest)? {
        return Ok(Some(statement));
    }
    if let Some(statement) = inside(alloc, key, rest)? {
        return Ok(Some(statement));
    }
    match framed(alloc, key, rest)? {
        Some(statement) => Ok(Some(statement)),
        None => Ok(None),
    }
}

/// The frame that they say.
fn framed(alloc: Global, key: &[u8], rest: &[&[u8]]) -> Result<Option<Statement>, OutOfMemory>
    ensures { IfOk result (λ found. MatchOption found ((statement : AnyStatement) → SaysFrameLine key.now (map (λ word. word.now) rest.now) statement → ⊥)
        (λ statement. SaysFrameLine key.now (map (λ word. word.now) rest.now) statement)) }
{
    if !is_same("frame", key) {
        return Ok(None);
    }
    match frame_of(alloc, rest)? {
        Some(frame) => Ok(Some(Statement::Frame(frame))),
        None => Ok(None),
    }
}

/// What they say outside a method, by the first and those behind it.
fn outside(alloc: Global, key: &[u8], rest: &[&[u8]]) -> Result<Option<Statement>, OutOfMemory>
    ensures { IfOk result (λ found. MatchOption found ((statement : AnyStatement) → SaysOutside key.now (map (λ word. word.now) rest.now) statement → ⊥)
        (λ statement. SaysOutside key.now (map (λ word. word.now) rest.now) statement)) }
{
    if is_same("class", key) {
        return match class_of(alloc, rest)? {
            Some(line) => Ok(Some(Statement::Class(line))),
            None => Ok(None),
        };
    }
    if is_same("implements", key) {
        return match interface_of(alloc, rest)? {
            Some(name) => Ok(Some(Statement::Implements(name))),
            None => Ok(None),
        };
    }
    if is_same("field", key) {
        return match field_of(alloc, rest)? {
            Some(line) => Ok(Some(Statement::Field(line))),
            None => Ok(None),
        };
    }
    Ok(None)
}

/// What they say in a method.
fn inside(alloc: Global, key: &[u8], rest: &[&[u8]]) -> Result<Option<Statement>, OutOfMemory>
    ensures { IfOk result (λ found. MatchOption found ((statement : AnyStatement) → SaysInside key.now (map (λ word. word.now) rest.now) statement → ⊥)
        (λ statement. SaysInside key.now (map (λ word. word.now) rest.now) statement)) }
{
    if is_same("method", key) {
        return match method_of(alloc, rest)? {
            Some(line) => Ok(Some(Statement::Method(line))),
            None => Ok(None),
        };
    }
    if is_same("limits", key) {
        return match limits_of(rest) {
            Some(line) => Ok(Some(Statement::Limits(line))),
            None => Ok(None),
        };
    }
    if is_same("catch", key) {
        return match catch_of(alloc, rest)? {
            Some(line) => Ok(Some(Statement::Catch(line))),
            None => Ok(None),
        };
    }
    if is_same("end", key) && rest.is_empty() {
        Ok(Some(Statement::End))
    } else {
        Ok(None)
    }
}
