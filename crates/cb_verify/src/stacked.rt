// Types on the operand stack of a frame.
ghost use Rattle.std.specs.Prelude.{◌≡◌, [], IfOk};
ghost use Rattle.cb_verify.specs.Expansion.{reversed};
ghost use Rattle.cb_verify.specs.Frames.{with_stack};

use crate::{TypeFrame, VerificationType};
use cb_plain::OutOfMemory;
use std::alloc::Global;

/// The frame with these types on its operand stack, which has none, the last being the topmost, if it may have so many words.
pub(crate) fn stacked(
    alloc: Global,
    most: u16,
    bare: TypeFrame,
    types: &[VerificationType],
) -> Result<Option<TypeFrame>, OutOfMemory>
    requires { bare.stack ≡ [] }
    ensures { IfOk result (λ frame. frame ≡ with_stack most bare (reversed [] types.now)) }
{
    let mut frame = bare;
    for value in types {
        match frame.push(alloc, most, *value)? {
            Some(higher) => frame = higher,
            None => return Ok(None),
        }
    }
    Ok(Some(frame))
}
