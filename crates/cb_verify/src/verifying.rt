// Whether a program is typed.
ghost use Rattle.std.specs.Prelude.{◌≡◌, ◌<◌, length, IfErr, IfOk};
ghost use Rattle.cb_verify.specs.Framed.{FramesStand, frames_in, typing_of};
ghost use Rattle.cb_verify.specs.Refused.{Refuses};
ghost use Rattle.cb_verify.specs.Typed.{IsTyped, fails_at};
ghost use Rattle.cb_verify.specs.Within.{within};
ghost use Rattle.cb_verify.specs.declared.verifying.VerifyFault.TheVariants.{OutOfMemory as MemoryFault};

use crate::Typing;
use crate::frame_table::FrameTable;
use crate::pass::{Passed, pass};
use crate::within::Within;
use cb_link::Program;
use cb_plain::{List, OutOfMemory};
use std::alloc::{AllocError, Global};

/// Why a program can't be verified.
#[derive(Debug, Drop)]
pub enum VerifyFault {
    /// The instruction at a place of a method of a class doesn't fit, or the frame that is declared there can't be had, or none of the
    /// instructions stands there.
    Unverified { class: u32, method: u32, pc: u32 },
    /// No memory was to be had.
    OutOfMemory,
}

impl From<AllocError> for VerifyFault {
    ghost from_gives = { λ _ fault. fault ≡ MemoryFault };

    fn from(_: AllocError) -> Self {
        VerifyFault::OutOfMemory
    }
}

/// Verifies a program by type checking (JVMS §4.10.1), and gives the frames before its instructions.
///
/// `Unverified` for the first method that can't be typed, by its number, and the least place of it that fails: 0 where the method has
/// no room for its parameters, or its first frame isn't assignable to the one that is declared there. `OutOfMemory` where no memory
/// was to be had.
///
/// Takes time in the instructions of each method times its handlers, and in its targets and the handlers that cover an instruction
/// times the logarithm of the number of its declared frames. Frames are compared for each of these targets and handlers, and where an
/// instruction goes on to a declared frame: that goes over the operand stack and the local variables up to which something is known, as
/// `new` and the call of a constructor do. Takes memory in the instructions times the logarithm of the size of a frame.
pub fn verify(alloc: Global, program: &Program) -> Result<Typing, VerifyFault>
    ensures typed { IfOk result (λ _. IsTyped program.now) }
    ensures typing { IfOk result (λ typing. typing ≡ typing_of program.now) }
    ensures frames { IfOk result (FramesStand program.now) }
    ensures refused { IfErr result (Refuses program.now) }
{
    let mut methods = List::new(alloc);
    for method in 0..program.method_count() {
        let passed = pass_numbered(alloc, program, method)?;
        match passed.failing {
            Some(pc) => {
                return Err(VerifyFault::Unverified {
                    class: program.class_of(method),
                    method,
                    pc,
                });
            }
            None => methods.push(FrameTable::of(alloc, passed.frames)?)?,
        }
    }
    Ok(Typing::of(methods))
}

/// Passes over the method of a number, if it has code.
fn pass_numbered(alloc: Global, program: &Program, number: u32) -> Result<Passed, OutOfMemory>
    requires { number < length program.now.methods }
    ensures frames { IfOk result (λ passed. passed.frames ≡ frames_in (within program.now number)) }
    ensures failing { IfOk result (λ passed. passed.failing ≡ fails_at program.now number) }
{
    match Within::of(program, number) {
        Some(method) => pass(alloc, &method),
        None => Ok(Passed {
            frames: List::new(alloc),
            failing: None,
        }),
    }
}
