// The bodies of methods.
ghost use Rattle.cb_asm_record.specs.Inner.{HasBody, Makes};
ghost use Rattle.cb_asm_record.specs.Record.{body_of};

use crate::code::code_of;
use crate::constants::Constants;
use crate::frame::frames_of;
use crate::handler::handlers_of;
use crate::labels::labels_of;
use crate::stop::Stop;
use cb_asm_line::CodeText;
use cb_classfile::Body;
use std::alloc::Global;

/// The body of a method. `NoRecord` where its labels don't stand as they should, or it has no bytes.
pub(crate) fn body_of<'a>(
    alloc: Global,
    constants: &Constants<'a>,
    code: &'a CodeText,
) -> Result<Body, Stop>
    ensures { Makes (body_of constants.now code.now) (HasBody code.now) result }
{
    let labels = labels_of(alloc, &code.lines)?;
    let instructions = code_of(alloc, constants, &labels, code.lines.as_slice())?;
    let handlers = handlers_of(alloc, constants, &labels, code.catches.as_slice())?;
    let frames = frames_of(alloc, constants, &labels, code.frames.as_slice())?;
    Ok(Body {
        max_stack: code.stack,
        max_locals: code.locals,
        code: instructions,
        handlers,
        frames,
    })
}
