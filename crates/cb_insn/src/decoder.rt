// The reader of code.
ghost use Rattle.std.specs.Prelude.{◌≡◌, ◌^◌, ◌<◌, ◌↔◌, ℕ, length, IfOk, IsErrOf, MatchResult};
ghost use Rattle.cb_insn.specs.Faults.{IsPlace, HasFault, HasBadTarget, IsCut, IsBadOpcode, IsBadOperand};
ghost use Rattle.cb_insn.specs.Grammar.{SpellsCode};
ghost use Rattle.cb_insn.specs.Inner.{MarksPlaces, IsFaultOf};

use crate::instruction::{instruction_at, plain, plain_at};
use crate::numbers::after;
use crate::starts::find_starts;
use crate::{Code, InsnFault, List};
use std::alloc::Global;

/// The instructions that some bytes spell, each with its place, or why they spell none: the first place that has
/// a fault, or where there is none the first that has a target in no instruction's place (JVMS §4.7.3, §4.9.1,
/// chapter 6). `OutOfMemory` where no memory was to be had. Takes time in the number of bytes.
pub fn decode(alloc: Global, bytes: &[u8]) -> Result<Code, InsnFault>
    requires { length bytes.now < 2 ^ 32 }
    ensures code { IfOk result (λ code. SpellsCode code bytes.now) }
    ensures exact { (code : _) → SpellsCode code bytes.now
        → MatchResult result (λ found. found ≡ code) (λ fault. fault ≡ InsnFault.OutOfMemory) }
    ensures cut { (pc : ℕ) → IsErrOf result (InsnFault.Cut pc)
        ↔ ((¬ IsErrOf result InsnFault.OutOfMemory) × HasFault bytes.now pc IsCut) }
    ensures bad_opcode { (pc : ℕ) → IsErrOf result (InsnFault.BadOpcode pc)
        ↔ ((¬ IsErrOf result InsnFault.OutOfMemory) × HasFault bytes.now pc IsBadOpcode) }
    ensures bad_operand { (pc : ℕ) → IsErrOf result (InsnFault.BadOperand pc)
        ↔ ((¬ IsErrOf result InsnFault.OutOfMemory) × HasFault bytes.now pc IsBadOperand) }
    ensures bad_target { (pc : ℕ) → IsErrOf result (InsnFault.BadTarget pc)
        ↔ ((¬ IsErrOf result InsnFault.OutOfMemory) × HasBadTarget bytes.now pc) }
{
    decode_or_fault(alloc, bytes)
}

/// The code, or its fault: the public clauses follow from this one, since bytes spell one code and have one fault.
fn decode_or_fault(alloc: Global, bytes: &[u8]) -> Result<Code, InsnFault>
    requires { length bytes.now < 2 ^ 32 }
    ensures { MatchResult result (λ code. SpellsCode code bytes.now) (IsFaultOf bytes.now) }
{
    let starts = find_starts(alloc, bytes)?;
    instructions(alloc, bytes, starts.marks.as_slice(), starts.count)
}

/// The instructions of code that is whole, by the marks of their places, or the first that has a bad target. Room is
/// taken once, for so many.
fn instructions(
    alloc: Global,
    bytes: &[u8],
    starts: &[bool],
    count: usize,
) -> Result<Code, InsnFault>
    requires short { length bytes.now < 2 ^ 32 }
    requires whole { IsPlace bytes.now (length bytes.now) }
    requires marks { MarksPlaces starts.now bytes.now }
    ensures { MatchResult result (λ code. SpellsCode code bytes.now) (IsFaultOf bytes.now) }
{
    let mut code = List::with_capacity(alloc, count)?;
    let mut pc = 0;
    while pc < bytes.len() {
        let rest = after(bytes, pc);
        if let Some(opcode) = plain_at(rest) {
            code.push((pc as u32, plain(opcode)))?;
            pc += 1;
            continue;
        }
        let (insn, size) = instruction_at(alloc, pc, rest, starts)?;
        code.push((pc as u32, insn))?;
        pc += size;
    }
    Ok(code)
}
