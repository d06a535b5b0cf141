// Numbers of 32 bits, and where there are no more of them.
ghost use Rattle.std.specs.Prelude.{◌≡◌, ◌+◌, ◌≤◌, ◌^◌, IfOk, IsErr};

use crate::OutOfMemory;
use std::alloc::AllocError;

/// An index as a number. `OutOfMemory` from 2^32 on, and there alone.
pub fn number_of(index: usize) -> Result<u32, OutOfMemory>
    ensures number { IfOk result (λ number. number ≡ index) }
    ensures refused { IsErr result → 2 ^ 32 ≤ index }
{
    match u32::try_from(index) {
        Ok(number) => Ok(number),
        Err(_) => Err(AllocError),
    }
}

/// The number behind one. `OutOfMemory` where that would be 2^32, and there alone.
pub fn one_more(number: u32) -> Result<u32, OutOfMemory>
    ensures more { IfOk result (λ more. more ≡ number + 1) }
    ensures refused { IsErr result → 2 ^ 32 ≤ number + 1 }
{
    match number.checked_add(1) {
        Some(more) => Ok(more),
        None => Err(AllocError),
    }
}
