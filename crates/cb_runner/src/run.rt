// The command `run`.
ghost use Rattle.std.specs.Prelude.{◌≡◌, ◌≤◌};
ghost use Rattle.cb_io.specs.Faults.{CountsFaults};
ghost use Rattle.cb_runner.specs.Answer.{EndsIn};
ghost use Rattle.cb_runner.specs.Inner.{IsCarriedOut, TellsWhole, run_of, words_of};
ghost use Rattle.cb_runner.specs.Words.{AreFew, RunIn};
ghost use Rattle.cb_runner.specs.declared.stop.Stop.TheVariants as stops;

use crate::executing::run_program;
use crate::linking::link_class;
use crate::run_words::RunWords;
use crate::stopped::Stopped;
use cb_io::{Folder, Sink, Source};
use std::alloc::Global;

/// Links and verifies the class of a folder that words name, and runs it.
pub(crate) fn run_class<F: Folder, I: Source, O: Sink>(
    alloc: Global,
    asked: &RunWords<'_>,
    folder: &mut F,
    input: &mut I,
    out: &mut O,
) -> Stopped
    requires few { AreFew (words_of asked.now.arguments) }
    requires steps { asked.now.steps ≤ 10000000000 }
    requires blocks { asked.now.blocks ≤ 1048576 }
    ensures ends { IsCarriedOut (EndsIn I.left I.gave (RunIn asked.now.folder.now (run_of asked.now)) (F.files folder.old) input.old input.new)
        (I.left input.old) (I.left input.new) (O.taken out.old) (O.taken out.new) result.store result.stop }
    ensures kept { F.files folder.new ≡ F.files folder.old }
    ensures tells { TellsWhole result.store result.stop }
    ensures folder_fault { CountsFaults (F.faults folder.old) (F.faults folder.new) (result.stop ≡ stops.FolderFault) }
    ensures input_fault { CountsFaults (I.faults input.old) (I.faults input.new) (result.stop ≡ stops.InputFault) }
    ensures output_fault { CountsFaults (O.faults out.old) (O.faults out.new) (result.stop ≡ stops.OutputFault) }
{
    match link_class(alloc, asked, folder) {
        Ok(program) => run_program(alloc, program, asked, input, out),
        Err(stop) => Stopped::of(stop),
    }
}
