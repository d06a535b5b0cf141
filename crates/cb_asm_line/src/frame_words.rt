// Frames, read.
ghost use Rattle.std.specs.Prelude.{List as Items, ℕ, map, IfOk, MatchOption};
ghost use Rattle.cb_asm_line.specs.Label.{Label as AnyLabel};
ghost use Rattle.cb_asm_line.specs.Quoting.{comma};
ghost use Rattle.cb_asm_line.specs.SaidFrames.{AreApart, AreEach, AreTypes, IsNew, IsObject, IsPlainType, IsTypeWord, SaysFrame, SaysParts, SaysType};
ghost use Rattle.cb_asm_line.specs.declared.frame.Frame.{Frame as AnyFrame};
ghost use Rattle.cb_asm_line.specs.declared.frame.FrameType.{FrameType as AnyType};

use crate::arity::five;
use crate::flag_word::behind_front;
use crate::label::label_of;
use crate::line::cut;
use crate::mnemonic::is_same;
use crate::word::name_of;
use crate::{Frame, FrameType, Label};
use cb_plain::List;
use std::alloc::{AllocError as OutOfMemory, Global};

/// The frame that the words behind `frame` say, or `None` where they say none.
pub(crate) fn frame_of(alloc: Global, words: &[&[u8]]) -> Result<Option<Frame<Label>>, OutOfMemory>
    ensures { IfOk result (λ found. MatchOption found ((frame : AnyFrame AnyLabel) → SaysFrame (map (λ word. word.now) words.now) frame → ⊥)
        (λ frame. SaysFrame (map (λ word. word.now) words.now) frame)) }
{
    let Some((place, first, locals, second, stack)) = five(words) else {
        return Ok(None);
    };
    if !is_same("locals", first) || !is_same("stack", second) {
        return Ok(None);
    }
    match frame_line(alloc, place, locals, stack)? {
        Some(frame) => Ok(Some(frame)),
        None => Ok(None),
    }
}

/// The frame of a label and the types of the locals and on the stack.
fn frame_line(
    alloc: Global,
    place: &[u8],
    locals: &[u8],
    stack: &[u8],
) -> Result<Option<Frame<Label>>, OutOfMemory>
    ensures { IfOk result (λ found. MatchOption found ((frame : AnyFrame AnyLabel) → SaysParts place.now locals.now stack.now frame → ⊥)
        (λ frame. SaysParts place.now locals.now stack.now frame)) }
{
    let Some(place) = label_of(alloc, place)? else {
        return Ok(None);
    };
    let Some(locals) = types_of(alloc, locals)? else {
        return Ok(None);
    };
    match types_of(alloc, stack)? {
        Some(stack) => Ok(Some(Frame {
            place,
            locals,
            stack,
        })),
        None => Ok(None),
    }
}

/// The types that a word is.
fn types_of(alloc: Global, word: &[u8]) -> Result<Option<List<FrameType<Label>>>, OutOfMemory>
    ensures { IfOk result (λ found. MatchOption found ((types : Items (AnyType AnyLabel)) → AreTypes word.now types → ⊥)
        (λ types. AreTypes word.now types)) }
{
    if is_same("-", word) {
        return Ok(Some(List::new(alloc)));
    }
    let words = apart(alloc, word)?;
    each_type(alloc, words.as_slice())
}

/// What stands between the commas of a text.
fn apart<'a>(alloc: Global, text: &'a [u8]) -> Result<Vec<&'a [u8]>, OutOfMemory>
    ensures { IfOk result (λ words. AreApart comma text.now (map (λ word. word.now) words.items)) }
{
    let mut words = Vec::new(alloc);
    let mut rest = text;
    while let Some((word, behind)) = cut(rest, b',') {
        words.push(word)?;
        rest = behind;
    }
    words.push(rest)?;
    Ok(words)
}

/// Types, one a word.
fn each_type(alloc: Global, words: &[&[u8]]) -> Result<Option<List<FrameType<Label>>>, OutOfMemory>
    ensures { IfOk result (λ found. MatchOption found ((types : Items (AnyType AnyLabel)) → AreEach (map (λ word. word.now) words.now) types → ⊥)
        (λ types. AreEach (map (λ word. word.now) words.now) types)) }
{
    let mut types = List::new(alloc);
    for word in words {
        let Some(kind) = type_of(alloc, word)? else {
            return Ok(None);
        };
        types.push(kind)?;
    }
    Ok(Some(types))
}

/// The type that a word is.
fn type_of(alloc: Global, word: &[u8]) -> Result<Option<FrameType<Label>>, OutOfMemory>
    ensures { IfOk result (λ found. MatchOption found ((type : AnyType AnyLabel) → IsTypeWord word.now type → ⊥)
        (λ type. IsTypeWord word.now type)) }
{
    any_type(alloc, word)
}

/// The same, by which of three kinds the type is.
fn any_type(alloc: Global, word: &[u8]) -> Result<Option<FrameType<Label>>, OutOfMemory>
    ensures { IfOk result (λ found. MatchOption found ((type : AnyType AnyLabel) → SaysType word.now type → ⊥)
        (λ type. SaysType word.now type)) }
{
    if let Some(plain) = plain_type(word) {
        return Ok(Some(plain));
    }
    if let Some(object) = object_type(alloc, word)? {
        return Ok(Some(object));
    }
    match new_type(alloc, word)? {
        Some(made) => Ok(Some(made)),
        None => Ok(None),
    }
}

/// The type by itself that a word is.
fn plain_type(word: &[u8]) -> Option<FrameType<Label>>
    ensures { MatchOption result ((type : AnyType AnyLabel) → IsPlainType word.now type → ⊥) (λ type. IsPlainType word.now type) }
{
    if is_same("top", word) {
        Some(FrameType::Top)
    } else if is_same("int", word) {
        Some(FrameType::Int)
    } else if is_same("long", word) {
        Some(FrameType::Long)
    } else if is_same("null", word) {
        Some(FrameType::Null)
    } else if is_same("this", word) {
        Some(FrameType::This)
    } else {
        None
    }
}

/// The class or array that a word is.
fn object_type(alloc: Global, word: &[u8]) -> Result<Option<FrameType<Label>>, OutOfMemory>
    ensures { IfOk result (λ found. MatchOption found ((type : AnyType AnyLabel) → IsObject word.now type → ⊥) (λ type. IsObject word.now type)) }
{
    let Some(rest) = behind_front(word, "object:".as_bytes()) else {
        return Ok(None);
    };
    match name_of(alloc, rest)? {
        Some(name) => Ok(Some(FrameType::Object(name))),
        None => Ok(None),
    }
}

/// What the `new` at a label has made, which a word is.
fn new_type(alloc: Global, word: &[u8]) -> Result<Option<FrameType<Label>>, OutOfMemory>
    ensures { IfOk result (λ found. MatchOption found ((type : AnyType AnyLabel) → IsNew word.now type → ⊥) (λ type. IsNew word.now type)) }
{
    let Some(rest) = behind_front(word, "new:".as_bytes()) else {
        return Ok(None);
    };
    match label_of(alloc, rest)? {
        Some(label) => Ok(Some(FrameType::New(label))),
        None => Ok(None),
    }
}
