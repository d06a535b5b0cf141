// The attribute Code (JVMS §4.7.3).
ghost use Rattle.std.specs.Prelude.{◌≡◌, ◌^◌, ◌<◌, length};
ghost use Rattle.cb_classfile.specs.Code.{SpellsBody, SpellsCodeBytes, SpellsFramesIn, SpellsInstructions};
ghost use Rattle.cb_classfile.specs.Reading.{ReadsWhole, Tells};
ghost use Rattle.cb_classfile.specs.Tables.{TellsBytes};

use crate::attribute::{Occurrence, all_attributes_named};
use crate::constants::Constants;
use crate::fault::Fault;
use crate::handler::are_placed;
use crate::needed::have_constants;
use crate::numbers::{block_at, pair_at};
use crate::table::{table, whole_table};
use crate::{Frames, Handlers};
use cb_insn::{Code, decode};
use std::alloc::Global;

/// The attribute `Code` of a method (JVMS §4.7.3).
#[derive(Debug, Drop)]
pub struct Body {
    /// The most words of the operand stack.
    pub max_stack: u16,
    /// The number of words of the locals.
    pub max_locals: u16,
    /// The instructions, each with its place.
    pub code: Code,
    /// The exception table.
    pub handlers: Handlers,
    /// The frames of its attribute `StackMapTable`, or none where it has no such attribute (§4.7.4).
    pub frames: Frames,
}

/// The greatest length of code (JVMS §4.7.3).
const MAX_CODE_LENGTH: usize = 65535;

/// The body that the contents of an attribute `Code` spell.
pub(crate) fn body_of(
    alloc: Global,
    constants: &Constants<'_>,
    contents: &[u8],
) -> Result<Body, Fault>
    ensures { ReadsWhole (SpellsBody constants.now) contents.now result }
{
    let ((max_stack, max_locals), rest) = pair_at(contents)?;
    let (bytes, rest) = code_at(rest)?;
    let code = code_of(alloc, constants, bytes)?;
    let (handlers, rest) = table(alloc, constants, rest)?;
    if !are_placed(&code, bytes.len(), handlers.as_slice()) {
        return Err(Fault::Malformed);
    }
    let frames = frames_of(alloc, constants, rest)?;
    Ok(Body {
        max_stack,
        max_locals,
        code,
        handlers,
        frames,
    })
}

/// The frames in the attributes of a body.
fn frames_of(alloc: Global, constants: &Constants<'_>, bytes: &[u8]) -> Result<Frames, Fault>
    ensures { ReadsWhole (SpellsFramesIn constants.now) bytes.now result }
{
    match all_attributes_named(constants, b"StackMapTable", bytes)? {
        Occurrence::Never => Ok(Frames::new(alloc)),
        Occurrence::Once(contents) => whole_table(alloc, constants, contents),
        Occurrence::Again => Err(Fault::Malformed),
    }
}

/// The bytes of the code behind their length at the front, and what stands behind them.
fn code_at(bytes: &[u8]) -> Result<(&[u8], &[u8]), Fault>
    ensures { Tells SpellsCodeBytes TellsBytes bytes.now result }
{
    let (code, rest) = block_at(bytes)?;
    if code.is_empty() || code.len() > MAX_CODE_LENGTH {
        return Err(Fault::Malformed);
    }
    Ok((code, rest))
}

/// The instructions of the code, each with a constant of the kind that it needs.
fn code_of(alloc: Global, constants: &Constants<'_>, bytes: &[u8]) -> Result<Code, Fault>
    requires { length bytes.now < 2 ^ 16 }
    ensures { ReadsWhole (SpellsInstructions constants.now) bytes.now result }
{
    let code = decode(alloc, bytes)?;
    if !have_constants(constants, code.as_slice()) {
        return Err(Fault::Malformed);
    }
    Ok(code)
}
