// Bodies of methods as lines.
ghost use Rattle.std.specs.Prelude.{◌≡◌, ◌++◌, ◌∷◌, [], OnOk, Some, codes, length, string_bytes};
ghost use Rattle.std.specs.List.{flat_map};
ghost use Rattle.cb_asm_line.specs.Lines.{line_text, lines_text, space};
ghost use Rattle.cb_asm_line.specs.Numbers.{decimal};
ghost use Rattle.cb_asm_line.specs.Quoting.{any_name};
ghost use Rattle.cb_asm_line.specs.Spelling.{code_lines, name_or};
ghost use Rattle.cb_asm_list.specs.Inner.{IsCoded, catch_text};
ghost use Rattle.cb_asm_list.specs.Listing.{code_of, code_with};
ghost use Rattle.cb_insn.specs.Writing.{code_bytes};
ghost use Rattle.cb_classfile.specs.Pool.{HasText, IsAnyMethodDescriptor, class_at};

use crate::code::push_code;
use crate::expansion::{FullFrames, listed_frames};
use crate::frame_line::push_frames;
use crate::labels::{labelled_places, places_of, size_of};
use crate::places::Places;
use crate::words::{end_line, push_label, push_name_word, push_word};
use cb_classfile::{Body, ClassFile, Handler, Method};
use cb_plain::OutOfMemory;
use std::alloc::Global;
use std::fmt::Write;

/// Adds the lines of the body of a method.
pub(crate) fn push_body(
    alloc: Global,
    text: &mut String,
    class: &ClassFile,
    method: &Method,
    body: &Body,
) -> Result<(), OutOfMemory>
    requires described { HasText class.now.pool method.now.descriptor IsAnyMethodDescriptor }
    requires coded { IsCoded body.now }
    ensures { OnOk result (string_bytes text.new ≡ string_bytes text.old
        ++ lines_text (code_lines (Some (code_of class.now method.now body.now)))) }
{
    let size = size_of(body);
    let places = places_of(alloc, body, size)?;
    let frames = listed_frames(alloc, class, method, body, &places)?;
    let labels = labelled_places(alloc, body, &frames, &places)?;
    push_lines(text, class, body, size, &frames, &labels)
}

/// Adds the lines of a body, whose code takes so many bytes, with these frames, whose places have these labels.
fn push_lines(
    text: &mut String,
    class: &ClassFile,
    body: &Body,
    size: u32,
    frames: &FullFrames,
    labels: &Places,
) -> Result<(), OutOfMemory>
    requires { size ≡ length (code_bytes body.now.code) }
    ensures { OnOk result (string_bytes text.new ≡ string_bytes text.old
        ++ lines_text (code_lines (Some (code_with class.now body.now frames.now labels.now)))) }
{
    push_limits(text, body.max_stack, body.max_locals)?;
    push_code(text, class, labels, body, size)?;
    push_catches(text, class, labels, body.handlers.as_slice())?;
    push_frames(text, labels, frames.as_slice())
}

/// Adds the line of the limits of code.
fn push_limits(text: &mut String, stack: u16, locals: u16) -> Result<(), OutOfMemory>
    ensures { OnOk result (string_bytes text.new ≡ string_bytes text.old
        ++ line_text (codes "limits" ∷ decimal stack ∷ decimal locals ∷ [])) }
{
    write!(text, "limits {stack} {locals}\n")
}

/// Adds the lines of an exception table.
fn push_catches(
    text: &mut String,
    class: &ClassFile,
    labels: &Places,
    handlers: &[Handler],
) -> Result<(), OutOfMemory>
    ensures { OnOk result (string_bytes text.new ≡ string_bytes text.old
        ++ flat_map (catch_text class.now labels.now) handlers.now) }
{
    for handler in handlers {
        push_catch(text, class, labels, *handler)?;
    }
    Ok(())
}

/// Adds the line of an entry of an exception table.
fn push_catch(
    text: &mut String,
    class: &ClassFile,
    labels: &Places,
    handler: Handler,
) -> Result<(), OutOfMemory>
    ensures { OnOk result (string_bytes text.new ≡ string_bytes text.old ++ catch_text class.now labels.now handler) }
{
    text.push_str("catch")?;
    push_label(text, labels, u32::from(handler.start))?;
    push_label(text, labels, u32::from(handler.end))?;
    push_label(text, labels, u32::from(handler.handler))?;
    push_caught(text, class, handler.catch_type)?;
    end_line(text)
}

/// Adds a space and the name of the class at an index, or the word for all where none stands there.
fn push_caught(text: &mut String, class: &ClassFile, index: u16) -> Result<(), OutOfMemory>
    ensures { OnOk result (string_bytes text.new ≡ string_bytes text.old
        ++ space ∷ name_or any_name (class_at class.now.pool index)) }
{
    match class.pool.class(index) {
        Some(name) => push_name_word(text, name),
        None => push_word(text, "any"),
    }
}
