// Frames as lines.
ghost use Rattle.std.specs.Prelude.{◌≡◌, ◌++◌, ◌∷◌, OnOk, Some, map, string_bytes};
ghost use Rattle.std.specs.List.{flat_map};
ghost use Rattle.cb_asm_line.specs.Lines.{line_text, space};
ghost use Rattle.cb_asm_line.specs.Quoting.{comma};
ghost use Rattle.cb_asm_line.specs.Spelling.{frame_line, type_word, types_word};
ghost use Rattle.cb_asm_list.specs.Inner.{frame_text, marked};
ghost use Rattle.cb_asm_list.specs.Listing.{frame_line_of, label_of, type_of};

use crate::places::Places;
use crate::words::{end_line, push_label, push_word};
use cb_asm_line::{Frame, FrameType, push_name};
use cb_plain::OutOfMemory;
use std::fmt::Write;

/// Adds the lines of frames.
pub(crate) fn push_frames(
    text: &mut String,
    labels: &Places,
    frames: &[Option<Frame<u32>>],
) -> Result<(), OutOfMemory>
    ensures { OnOk result (string_bytes text.new ≡ string_bytes text.old
        ++ flat_map (frame_text labels.now) frames.now) }
{
    for frame in frames {
        push_frame_line(text, labels, frame)?;
    }
    Ok(())
}

/// Adds the line of a frame.
fn push_frame_line(
    text: &mut String,
    labels: &Places,
    frame: &Option<Frame<u32>>,
) -> Result<(), OutOfMemory>
    ensures { OnOk result (string_bytes text.new ≡ string_bytes text.old
        ++ line_text (frame_line (frame_line_of (label_of labels.now) frame.now))) }
{
    match frame {
        Some(frame) => push_frame(text, labels, frame),
        None => text.push_str("frame bad\n"),
    }
}

/// Adds the line of a frame that isn't bad.
fn push_frame(text: &mut String, labels: &Places, frame: &Frame<u32>) -> Result<(), OutOfMemory>
    ensures { OnOk result (string_bytes text.new ≡ string_bytes text.old
        ++ line_text (frame_line (frame_line_of (label_of labels.now) (Some frame.now)))) }
{
    text.push_str("frame")?;
    push_label(text, labels, frame.place)?;
    push_word(text, "locals")?;
    push_types(text, labels, frame.locals.as_slice())?;
    push_word(text, "stack")?;
    push_types(text, labels, frame.stack.as_slice())?;
    end_line(text)
}

/// Adds a space and the word of types.
fn push_types(
    text: &mut String,
    labels: &Places,
    types: &[FrameType<u32>],
) -> Result<(), OutOfMemory>
    ensures { OnOk result (string_bytes text.new ≡ string_bytes text.old
        ++ space ∷ types_word (map (type_of (label_of labels.now)) types.now)) }
{
    match types {
        [] => push_word(text, "-"),
        [first, rest @ ..] => {
            text.push_str(" ")?;
            push_type(text, labels, first)?;
            push_more_types(text, labels, rest)
        }
    }
}

/// Adds types that stand behind another, each with a comma before it.
fn push_more_types(
    text: &mut String,
    labels: &Places,
    types: &[FrameType<u32>],
) -> Result<(), OutOfMemory>
    ensures { OnOk result (string_bytes text.new ≡ string_bytes text.old
        ++ marked comma (map type_word (map (type_of (label_of labels.now)) types.now))) }
{
    for kind in types {
        text.push_str(",")?;
        push_type(text, labels, kind)?;
    }
    Ok(())
}

/// Adds a type.
fn push_type(text: &mut String, labels: &Places, kind: &FrameType<u32>) -> Result<(), OutOfMemory>
    ensures { OnOk result (string_bytes text.new ≡ string_bytes text.old
        ++ type_word (type_of (label_of labels.now) kind.now)) }
{
    match kind {
        FrameType::Top => text.push_str("top"),
        FrameType::Int => text.push_str("int"),
        FrameType::Long => text.push_str("long"),
        FrameType::Null => text.push_str("null"),
        FrameType::This => text.push_str("this"),
        FrameType::Object(name) => {
            text.push_str("object:")?;
            push_name(text, name.as_slice())
        }
        FrameType::New(place) => {
            let number = labels.number(*place);
            write!(text, "new:L{number}")
        }
    }
}
