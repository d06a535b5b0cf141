// The constants of a pool, in order (JVMS §4.4).
ghost use Rattle.std.specs.Prelude.{◌≡◌, ◌↔◌, ◌++◌, length, IsTrue, MatchResult, OnOk, OnErr};
ghost use Rattle.cb_text.specs.Fronts.{IsFront, IsFrontless};
ghost use Rattle.cb_text.specs.Pool.{with_gap};
ghost use Rattle.cb_text.specs.Reading.{IsWide, SpellsConstants};

use crate::next_constant::next_constant;
use crate::{Constant, OutOfMemory, PoolFault};
use std::alloc::Global;

/// So many constants at the front, with a gap behind each that takes two indices, and what stands behind them.
/// Takes time in the number of bytes.
pub(crate) fn constants_of(
    alloc: Global,
    count: usize,
    bytes: &[u8],
) -> Result<(Vec<Constant>, &[u8]), PoolFault>
    ensures { MatchResult result (λ read. IsFront (SpellsConstants count) bytes.now read.0.items read.1.now)
        (IsFrontless PoolFault.OutOfMemory (SpellsConstants count) bytes.now) }
{
    let mut constants = Vec::with_capacity(alloc, count)?;
    let mut rest = bytes;
    while constants.len() < count {
        let (constant, after) = next_constant(alloc, rest)?;
        if places_of(&constant) > count - constants.len() {
            return Err(PoolFault::BadPool);
        }
        push_with_gap(&mut constants, constant)?;
        rest = after;
    }
    Ok((constants, rest))
}

/// Adds a constant, and behind a `Long` or `Double` its gap. A refused growth changes nothing.
pub(crate) fn push_with_gap(
    constants: &mut Vec<Constant>,
    constant: Constant,
) -> Result<(), OutOfMemory>
    ensures ok { OnOk result (constants.new.items ≡ constants.old.items ++ with_gap constant) }
    ensures err { OnErr result (constants.new.items ≡ constants.old.items) }
{
    let is_wide = takes_two(&constant);
    constants.reserve(if is_wide { 2 } else { 1 })?;
    constants.push_reserved(constant);
    if is_wide {
        constants.push_reserved(Constant::Gap);
    }
    Ok(())
}

/// How many indices the constant takes.
pub(crate) fn places_of(constant: &Constant) -> usize
    ensures { result ≡ length (with_gap constant.now) }
{
    if takes_two(constant) { 2 } else { 1 }
}

/// Whether the constant takes two indices (JVMS §4.4.5).
fn takes_two(constant: &Constant) -> bool
    ensures { IsTrue result ↔ IsWide constant.now }
{
    matches!(constant, Constant::Long(_) | Constant::Double(_))
}
