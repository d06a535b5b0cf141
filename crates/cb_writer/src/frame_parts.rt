// The parts of a frame, by its form (JVMS §4.7.4).
ghost use Rattle.std.specs.Prelude.{◌≡◌, ◌↔◌, ◌++◌, ℕ, IsTrue, OnOk};
ghost use Rattle.cb_classfile.specs.FrameMap.{SpellsDelta, SpellsLocals, SpellsStack, delta_bytes, locals_bytes, stack_bytes};
ghost use Rattle.cb_writer.specs.Formed.{HasSpelling};

use crate::attribute_names::AttributeNames;
use crate::entry::{is_count, is_table, push_entries, push_table};
use crate::numbers::push_u2;
use cb_classfile::{FrameForm, MapType};
use cb_plain::OutOfMemory;

/// Whether a frame of this form and kind may have the delta.
pub(crate) fn is_delta(form: FrameForm, kind: u8, delta: u16) -> bool
    ensures { IsTrue result ↔ HasSpelling (SpellsDelta form kind) delta }
{
    match form {
        FrameForm::Same => delta == u16::from(kind),
        FrameForm::SameOneItem => u32::from(delta) + 64 == u32::from(kind),
        FrameForm::Reserved => false,
        _ => true,
    }
}

/// Whether it may have the locals.
pub(crate) fn are_locals(
    names: &AttributeNames<'_>,
    form: FrameForm,
    kind: u8,
    locals: &[MapType],
) -> bool
    ensures { IsTrue result ↔ HasSpelling (SpellsLocals names.now form kind) locals.now }
{
    match form {
        FrameForm::Append => is_count(names, usize::from(kind).saturating_sub(251), locals),
        FrameForm::Full => is_table(names, locals),
        _ => locals.is_empty(),
    }
}

/// Whether it may have the stack.
pub(crate) fn is_stack(names: &AttributeNames<'_>, form: FrameForm, stack: &[MapType]) -> bool
    ensures { IsTrue result ↔ HasSpelling (SpellsStack names.now form) stack.now }
{
    match form {
        FrameForm::SameOneItem | FrameForm::SameOneItemExtended => is_count(names, 1, stack),
        FrameForm::Full => is_table(names, stack),
        _ => stack.is_empty(),
    }
}

/// Writes the delta of a frame, where it stands behind the kind.
pub(crate) fn push_delta(
    bytes: &mut Vec<u8>,
    form: FrameForm,
    delta: u16,
) -> Result<(), OutOfMemory>
    ensures { OnOk result (bytes.new.items ≡ bytes.old.items ++ delta_bytes form delta) }
{
    match form {
        FrameForm::Same | FrameForm::SameOneItem | FrameForm::Reserved => Ok(()),
        _ => push_u2(bytes, delta),
    }
}

/// Writes its locals.
pub(crate) fn push_locals(
    names: &AttributeNames<'_>,
    bytes: &mut Vec<u8>,
    form: FrameForm,
    kind: u8,
    locals: &[MapType],
) -> Result<(), OutOfMemory>
    requires { HasSpelling (SpellsLocals names.now form kind) locals.now }
    ensures { OnOk result (bytes.new.items ≡ bytes.old.items ++ locals_bytes form locals.now) }
{
    match form {
        FrameForm::Append => push_entries(names, bytes, locals),
        FrameForm::Full => push_table(names, bytes, locals),
        _ => Ok(()),
    }
}

/// Writes its stack.
pub(crate) fn push_stack(
    names: &AttributeNames<'_>,
    bytes: &mut Vec<u8>,
    form: FrameForm,
    stack: &[MapType],
) -> Result<(), OutOfMemory>
    requires { HasSpelling (SpellsStack names.now form) stack.now }
    ensures { OnOk result (bytes.new.items ≡ bytes.old.items ++ stack_bytes form stack.now) }
{
    match form {
        FrameForm::SameOneItem | FrameForm::SameOneItemExtended => {
            push_entries(names, bytes, stack)
        }
        FrameForm::Full => push_table(names, bytes, stack),
        _ => Ok(()),
    }
}
