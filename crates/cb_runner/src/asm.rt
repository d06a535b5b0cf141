// The command `asm`.
ghost use Rattle.std.specs.Prelude.{◌≡◌, ◌≤◌, length, None, Option};
ghost use Rattle.cb_io.specs.Faults.{CountsFaults};
ghost use Rattle.cb_io.specs.Folder.{Files};
ghost use Rattle.cb_runner.specs.Answer.{EndsIn};
ghost use Rattle.cb_runner.specs.Asm.{AssemblesText, text_limit};
ghost use Rattle.cb_runner.specs.Inner.{IsCarriedOut, Makes, TellsWhole};
ghost use Rattle.cb_runner.specs.Words.{Assemble};
ghost use Rattle.cb_runner.specs.declared.stop.Stop.TheVariants as stops;

use crate::Refusal;
use crate::input::{Input, read_input};
use crate::printing::print_made;
use crate::stop::Stop;
use cb_asm::{AsmFault, assemble_bytes};
use cb_io::{Sink, Source};
use cb_link::Quantity;
use cb_writer::write_class;
use std::alloc::Global;

/// The most bytes of an assembly text.
const MAX_TEXT_LENGTH: usize = 1_048_576;

/// Prints the class file of the text that the input has.
pub(crate) fn assemble_input<S: Source, O: Sink>(alloc: Global, input: &mut S, out: &mut O) -> Stop
    ensures ends { IsCarriedOut (λ ending. (files : Option Files) → EndsIn S.left S.gave Assemble files input.old input.new ending)
        (S.left input.old) (S.left input.new) (O.taken out.old) (O.taken out.new) None result }
    ensures tells { TellsWhole None result }
    ensures input_fault { CountsFaults (S.faults input.old) (S.faults input.new) (result ≡ stops.InputFault) }
    ensures output_fault { CountsFaults (O.faults out.old) (O.faults out.new) (result ≡ stops.OutputFault) }
{
    match read_input(alloc, input, MAX_TEXT_LENGTH) {
        Ok(Input::Whole(text)) => print_made(file_of(alloc, text.as_slice()), out),
        Ok(Input::TooLong) => Stop::refused(
            alloc,
            Refusal::TooLarge {
                what: Quantity::AssemblyBytes,
                count: MAX_TEXT_LENGTH as u64 + 1,
                limit: MAX_TEXT_LENGTH as u64,
            },
        ),
        Err(stop) => stop,
    }
}

/// The class file of a text.
fn file_of(alloc: Global, text: &[u8]) -> Result<Vec<u8>, Stop>
    requires { length text.now ≤ text_limit }
    ensures { Makes (AssemblesText text.now) (length text.now) result }
{
    match assemble_bytes(alloc, text) {
        Ok(class) => match write_class(alloc, &class) {
            Ok(bytes) => Ok(bytes),
            Err(_) => Err(Stop::OutOfMemory),
        },
        Err(AsmFault::BadLine { line }) => Err(Stop::refused(alloc, Refusal::BadLine { line })),
        Err(AsmFault::OutOfMemory) => Err(Stop::OutOfMemory),
    }
}
