// How many bytes frames have (JVMS §4.7.4).
ghost use Rattle.std.specs.Prelude.{◌≡◌, ◌*◌, ◌^◌, ◌<◌, ◌≤◌, ℕ, length};
ghost use Rattle.std.specs.List.{flat_map};
ghost use Rattle.cb_classfile.specs.FrameMap.{SpellsFrame, SpellsLocals, SpellsStack, delta_bytes, frame_bytes, locals_bytes, stack_bytes, type_bytes};
ghost use Rattle.cb_classfile.specs.Tables.{SpellsTable, table_bytes};
ghost use Rattle.cb_writer.specs.Formed.{HasSpelling};

use crate::attribute_names::AttributeNames;
use cb_classfile::{FrameForm, MapFrame, MapType, form_of_frame};

/// How many bytes a table of frames has. Takes time in the number of frames and of their types.
pub(crate) fn frames_size(names: &AttributeNames<'_>, frames: &[MapFrame]) -> usize
    requires { HasSpelling (SpellsTable (SpellsFrame names.now)) frames.now }
    ensures { result ≡ length (table_bytes frame_bytes frames.now) }
{
    let mut size = 2;
    for frame in frames {
        size += frame_size(names, frame);
    }
    size
}

/// How many bytes a frame has.
fn frame_size(names: &AttributeNames<'_>, frame: &MapFrame) -> usize
    requires { HasSpelling (SpellsFrame names.now) frame.now }
    ensures exact { result ≡ length (frame_bytes frame.now) }
    ensures bound { result < 2 ^ 20 }
{
    let form = form_of_frame(frame.kind);
    1 + delta_size(form)
        + locals_size(names, form, frame.kind, frame.locals.as_slice())
        + stack_size(names, form, frame.stack.as_slice())
}

/// How many bytes the delta of a frame has.
fn delta_size(form: FrameForm) -> usize
    ensures exact { (delta : ℕ) → result ≡ length (delta_bytes form delta) }
    ensures bound { result ≤ 2 }
{
    match form {
        FrameForm::Same | FrameForm::SameOneItem | FrameForm::Reserved => 0,
        _ => 2,
    }
}

/// How many bytes its locals have.
fn locals_size(names: &AttributeNames<'_>, form: FrameForm, kind: u8, locals: &[MapType]) -> usize
    requires { HasSpelling (SpellsLocals names.now form kind) locals.now }
    ensures exact { result ≡ length (locals_bytes form locals.now) }
    ensures bound { result < 2 ^ 18 }
{
    match form {
        FrameForm::Append => types_size(locals),
        FrameForm::Full => 2 + types_size(locals),
        _ => 0,
    }
}

/// How many bytes its stack has.
fn stack_size(names: &AttributeNames<'_>, form: FrameForm, stack: &[MapType]) -> usize
    requires { HasSpelling (SpellsStack names.now form) stack.now }
    ensures exact { result ≡ length (stack_bytes form stack.now) }
    ensures bound { result < 2 ^ 18 }
{
    match form {
        FrameForm::SameOneItem | FrameForm::SameOneItemExtended => types_size(stack),
        FrameForm::Full => 2 + types_size(stack),
        _ => 0,
    }
}

/// How many bytes types have.
fn types_size(types: &[MapType]) -> usize
    requires { length types.now < 2 ^ 16 }
    ensures exact { result ≡ length (flat_map type_bytes types.now) }
    ensures bound { result < 3 * 2 ^ 16 }
{
    let mut size = 0;
    for kind in types {
        size += type_size(*kind);
    }
    size
}

/// How many bytes a type has.
fn type_size(kind: MapType) -> usize
    ensures exact { result ≡ length (type_bytes kind) }
    ensures bound { result ≤ 3 }
{
    match kind {
        MapType::Object(_) | MapType::Uninitialized(_) => 3,
        _ => 1,
    }
}
