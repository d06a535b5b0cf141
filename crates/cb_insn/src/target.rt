// The targets of branches and switches, by the marks of the places of instructions (JVMS §4.9.1).
ghost use Rattle.std.specs.Prelude.{◌≡◌, ◌^◌, ◌*◌, ◌<◌, ◌≤◌, [], ◌∷◌, pos, ◌+ℤ◌, length, drop, map, All, IfOk, IfErr};
ghost use Rattle.cb_insn.specs.Faults.{numbers_at, targets_in};
ghost use Rattle.cb_insn.specs.Inner.{IsMarked, Misses, target_of, pairs_of};

use crate::numbers::{after, s4_at};
use crate::{InsnFault, List, Pair, Pairs, Targets};
use std::alloc::Global;

/// The target at an offset from a place, or `BadTarget` where it has no mark.
#[inline(always)]
pub(crate) fn target_at(pc: usize, offset: i32, starts: &[bool]) -> Result<u32, InsnFault>
    requires place { pc < 2 ^ 32 }
    requires few { length starts.now < 2 ^ 32 }
    ensures ok { IfOk result (λ target. (target ≡ target_of pc offset) × IsMarked starts.now (pos pc +ℤ offset)) }
    ensures err { IfErr result (Misses pc (targets_in pc (offset ∷ [])) starts.now) }
{
    let target = pc as i64 + i64::from(offset);
    if target < 0 || target >= starts.len() as i64 || !starts[target as usize] {
        return Err(InsnFault::BadTarget { pc: pc as u32 });
    }
    Ok(target as u32)
}

/// The targets at so many offsets from a place, or `BadTarget` where one has no mark. Takes time in their number.
#[inline(never)]
pub(crate) fn targets_at(
    alloc: Global,
    pc: usize,
    count: usize,
    offsets: &[u8],
    starts: &[bool],
) -> Result<Targets, InsnFault>
    requires place { pc < 2 ^ 32 }
    requires few { length starts.now < 2 ^ 32 }
    requires there { 4 * count ≤ length offsets.now }
    ensures ok { IfOk result (λ targets. (targets ≡ map (target_of pc) (numbers_at 4 count offsets.now))
        × All (IsMarked starts.now) (targets_in pc (numbers_at 4 count offsets.now))) }
    ensures err { IfErr result (Misses pc (targets_in pc (numbers_at 4 count offsets.now)) starts.now) }
{
    let mut targets = List::with_capacity(alloc, count)?;
    let mut rest = offsets;
    let mut left = count;
    while left > 0 {
        targets.push(target_at(pc, s4_at(rest), starts)?)?;
        rest = after(rest, 4);
        left -= 1;
    }
    Ok(targets)
}

/// So many pairs, or `BadTarget` where the target of one has no mark. Takes time in their number.
#[inline(never)]
pub(crate) fn pairs_at(
    alloc: Global,
    pc: usize,
    count: usize,
    bytes: &[u8],
    starts: &[bool],
) -> Result<Pairs, InsnFault>
    requires place { pc < 2 ^ 32 }
    requires few { length starts.now < 2 ^ 32 }
    requires there { 8 * count ≤ length bytes.now }
    ensures ok { IfOk result (λ pairs. (pairs ≡ pairs_of pc count bytes.now)
        × All (IsMarked starts.now) (targets_in pc (numbers_at 8 count (drop 4 bytes.now)))) }
    ensures err { IfErr result (Misses pc (targets_in pc (numbers_at 8 count (drop 4 bytes.now))) starts.now) }
{
    let mut pairs = List::with_capacity(alloc, count)?;
    let mut rest = bytes;
    let mut left = count;
    while left > 0 {
        let key = s4_at(rest);
        let target = target_at(pc, s4_at(after(rest, 4)), starts)?;
        pairs.push(Pair { key, target })?;
        rest = after(rest, 8);
        left -= 1;
    }
    Ok(pairs)
}
