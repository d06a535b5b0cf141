// The top call.
ghost use Rattle.std.specs.Prelude.{◌≡◌, false, map, string_bytes};
ghost use Rattle.cb_io.specs.Faults.{CountsFaults};
ghost use Rattle.cb_runner.specs.Answer.{Ends, IsAnswer, may_read};
ghost use Rattle.cb_runner.specs.Ending.{status_of};
ghost use Rattle.cb_runner.specs.Inner.{IsCarriedOut, TellsWhole};
ghost use Rattle.cb_runner.specs.Words.{AreFew, Command as SaidCommand, Says};
ghost use Rattle.cb_runner.specs.declared.stop.Stop.TheVariants as stops;

use crate::Ended;
use crate::asm::assemble_input;
use crate::list::list_file;
use crate::run::run_class;
use crate::stop::Stop;
use crate::stopped::Stopped;
use crate::words::{Command, command_of};
use cb_io::{Folder, Sink, Source};
use std::alloc::Global;

/// Does what the words of the command line say, which are those after the program's name.
///
/// `run [--steps N] [--frames N] [--blocks N] FOLDER MAIN [ARGS]` links the class MAIN: it reads `FOLDER/MAIN.class` and the files of the
/// classes that are needed. Then it verifies their methods (JVMS §4.10.1). If all are typed, the program is run with the
/// arguments, for at most so many steps, with at most so many frames, and with a heap of so many blocks of 2 KiB, which is taken
/// before its start; it reads from `input`, and what it prints goes to `out`. `list PATH` prints the listing of a class file, and reads nothing from `input`. `asm` reads an assembly text from
/// `input` and writes the class file to `out`. How the call ended goes to `err` as its last line, but where the command came
/// to its end. `Ended::status` is that of its cause: the argument modulo 256 where the program called `exit`, else 0, 1, or
/// 119 to 127.
pub fn run_command<F: Folder, S: Source, O: Sink, E: Sink>(
    alloc: Global,
    words: &[String],
    folder: &mut F,
    input: &mut S,
    out: &mut O,
    err: &mut E,
) -> Ended
    requires few { AreFew (map string_bytes words.now) }
    ensures answer { IsAnswer S.left S.gave (map string_bytes words.now)
        (record { files = F.files folder.old; input = input.old; out = O.taken out.old; err = E.taken err.old })
        (record { files = F.files folder.new; input = input.new; out = O.taken out.new; err = E.taken err.new })
        (record { folder = F.faults folder.old; input = S.faults input.old; out = O.faults out.old; err = E.faults err.old })
        (record { folder = F.faults folder.new; input = S.faults input.new; out = O.faults out.new; err = E.faults err.new })
        result.cause (record { tally = result.tally; heap = result.left }) }
    ensures status { result.status ≡ status_of result.cause }
{
    let stopped = carry_out(alloc, words, folder, input, out);
    let cause = stopped.tell(err);
    stopped.ended(cause)
}

/// Does what the words say, up to the last line.
fn carry_out<F: Folder, S: Source, O: Sink>(
    alloc: Global,
    words: &[String],
    folder: &mut F,
    input: &mut S,
    out: &mut O,
) -> Stopped
    requires few { AreFew (map string_bytes words.now) }
    ensures ends { IsCarriedOut (Ends S.left S.gave (map string_bytes words.now) (F.files folder.old) input.old input.new)
        (S.left input.old) (S.left input.new) (O.taken out.old) (O.taken out.new) result.store result.stop }
    ensures kept { F.files folder.new ≡ F.files folder.old }
    ensures tells { TellsWhole result.store result.stop }
    ensures alone { ((command : SaidCommand) → Says (map string_bytes words.now) command → may_read command ≡ false)
        → (input.new ≡ input.old) × (S.faults input.new ≡ S.faults input.old) }
    ensures folder_fault { CountsFaults (F.faults folder.old) (F.faults folder.new) (result.stop ≡ stops.FolderFault) }
    ensures input_fault { CountsFaults (S.faults input.old) (S.faults input.new) (result.stop ≡ stops.InputFault) }
    ensures output_fault { CountsFaults (O.faults out.old) (O.faults out.new) (result.stop ≡ stops.OutputFault) }
{
    match command_of(words) {
        Some(Command::Run(asked)) => run_class(alloc, &asked, folder, input, out),
        Some(Command::List { path }) => Stopped::of(list_file(alloc, path, folder, out)),
        Some(Command::Assemble) => Stopped::of(assemble_input(alloc, input, out)),
        None => Stopped::of(Stop::Usage),
    }
}
