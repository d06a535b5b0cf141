// The places of instructions, and the first fault of code.
ghost use Rattle.std.specs.Prelude.{◌^◌, ◌<◌, length, IfOk, IfErr};
ghost use Rattle.cb_insn.specs.Faults.{IsPlace};
ghost use Rattle.cb_insn.specs.Inner.{MarksPlaces, IsFaultOf};

use crate::InsnFault;
use crate::numbers::after;
use crate::reading::{Reading, reading_at};
use std::alloc::Global;

/// Where instructions begin.
#[derive(Debug, Drop)]
pub(crate) struct Starts {
    /// For each byte whether one begins there.
    pub(crate) marks: Vec<bool>,
    /// How many begin, which tells only how much room to take.
    pub(crate) count: usize,
}

/// Where instructions begin, or the first fault. Takes time in the number of bytes.
pub(crate) fn find_starts(alloc: Global, bytes: &[u8]) -> Result<Starts, InsnFault>
    requires { length bytes.now < 2 ^ 32 }
    ensures whole { IfOk result (λ starts. IsPlace bytes.now (length bytes.now)) }
    ensures marks { IfOk result (λ starts. MarksPlaces starts.marks.items bytes.now) }
    ensures fault { IfErr result (IsFaultOf bytes.now) }
{
    let mut marks = vec![in alloc; false; bytes.len()]?;
    let mut count = 0;
    let mut pc = 0;
    while pc < bytes.len() {
        match reading_at(pc, after(bytes, pc)) {
            Reading::Whole(size) => {
                marks[pc] = true;
                count += 1;
                pc += size;
            }
            Reading::Cut => return Err(InsnFault::Cut { pc: pc as u32 }),
            Reading::BadOpcode => return Err(InsnFault::BadOpcode { pc: pc as u32 }),
            Reading::BadOperand => return Err(InsnFault::BadOperand { pc: pc as u32 }),
        }
    }
    Ok(Starts { marks, count })
}
