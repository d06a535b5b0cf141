// The constant at the front of some bytes (JVMS §4.4).
ghost use Rattle.std.specs.Prelude.{◌∷◌};
ghost use Rattle.cb_text.specs.Fronts.{ReadsOr};
ghost use Rattle.cb_text.specs.Reading.{SpellsConstant};

use crate::contents::numbers_of;
use crate::numbers::u2_at;
use crate::{Constant, PoolFault, decode_modified};
use std::alloc::Global;

/// The constant at the front, and what stands behind it.
pub(crate) fn next_constant(alloc: Global, bytes: &[u8]) -> Result<(Constant, &[u8]), PoolFault>
    ensures { ReadsOr PoolFault.OutOfMemory SpellsConstant bytes.now result }
{
    let Some((tag, contents)) = bytes.split_first() else {
        return Err(PoolFault::BadPool);
    };
    if *tag == 1 {
        return text_of(alloc, contents);
    }
    match numbers_of(*tag, contents) {
        Some(read) => Ok(read),
        None => Err(PoolFault::BadPool),
    }
}

/// The text that stands behind its length, and what stands behind it.
fn text_of(alloc: Global, bytes: &[u8]) -> Result<(Constant, &[u8]), PoolFault>
    ensures { ReadsOr PoolFault.OutOfMemory SpellsConstant (1 ∷ bytes.now) result }
{
    let Some((length, rest)) = u2_at(bytes) else {
        return Err(PoolFault::BadPool);
    };
    let Some((text, after)) = rest.split_at_checked(usize::from(length)) else {
        return Err(PoolFault::BadPool);
    };
    let units = decode_modified(alloc, text)?;
    Ok((Constant::Utf8(units), after))
}
