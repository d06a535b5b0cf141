// Whether some bytes spell a body, and how many do that have nothing to skip (JVMS §4.7.3).
ghost use Rattle.std.specs.Prelude.{◌≡◌, ◌^◌, ◌<◌, IfSome, IsNone, length};
ghost use Rattle.cb_insn.specs.Writing.{code_bytes};
ghost use Rattle.cb_classfile.specs.Code.{SpellsBody, SpellsFramesIn, body_bytes, frames_in_bytes};
ghost use Rattle.cb_writer.specs.Formed.{HasSpelling, SpellsCodeOf};

use crate::attribute_names::{Attribute, AttributeNames};
use crate::entry::is_table;
use crate::size::frames_size;
use cb_classfile::{Body, Code, MapFrame, are_placed, have_constants};
use cb_insn::code_size;

/// The greatest length of code (JVMS §4.7.3).
const MAX_CODE_LENGTH: usize = 65535;

/// One more than the greatest length of an attribute (JVMS §4.7).
pub(crate) const TOO_LONG: usize = 0x1_0000_0000;

/// How many bytes spell a body and have nothing to skip, or `None` where none spell it.
pub(crate) fn body_size(names: &AttributeNames<'_>, body: &Body) -> Option<usize>
    ensures fits { IfSome result (λ size. HasSpelling (SpellsBody names.now) body.now
        × (size ≡ length (body_bytes names.now body.now))) }
    ensures none { IsNone result → ¬ HasSpelling (SpellsBody names.now) body.now }
{
    let handlers = body.handlers.as_slice();
    // Numbers that are read are known to fit their bytes.
    let _max_stack = body.max_stack;
    let _max_locals = body.max_locals;
    let code = code_length(names, &body.code)?;
    let frames = frames_length(names, body.frames.as_slice())?;
    if !is_table(names, handlers) {
        return None;
    }
    if are_placed(&body.code, code, handlers) {
        Some(10 + code + 8 * handlers.len() + frames)
    } else {
        None
    }
}

/// How many bytes the code of a body has, or `None` where none are its code.
fn code_length(names: &AttributeNames<'_>, code: &Code) -> Option<usize>
    ensures fits { IfSome result (λ size. SpellsCodeOf names.now (code_bytes code.now) code.now
        × (size ≡ length (code_bytes code.now))) }
    ensures none { IsNone result → ¬ HasSpelling (SpellsCodeOf names.now) code.now }
{
    let size = code_size(code)? as usize;
    if size == 0 {
        return None;
    }
    if size > MAX_CODE_LENGTH {
        return None;
    }
    if have_constants(&names.constants(), code.as_slice()) {
        Some(size)
    } else {
        None
    }
}

/// How many bytes the attributes of a body with these frames have, or `None` where none spell them.
fn frames_length(names: &AttributeNames<'_>, frames: &[MapFrame]) -> Option<usize>
    ensures fits { IfSome result (λ size. HasSpelling (SpellsFramesIn names.now) frames.now
        × (size ≡ length (frames_in_bytes names.now frames.now)) × (size < 2 ^ 33)) }
    ensures none { IsNone result → ¬ HasSpelling (SpellsFramesIn names.now) frames.now }
{
    if frames.is_empty() {
        return Some(2);
    }
    if !names.has(Attribute::StackMapTable) {
        return None;
    }
    if !is_table(names, frames) {
        return None;
    }
    let size = frames_size(names, frames);
    if size < TOO_LONG {
        Some(8 + size)
    } else {
        None
    }
}
