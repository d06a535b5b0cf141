//! The program `cbvm`: the real folder, input and outputs, handed to the top call.
#![tactic(auto)]

ghost use Rattle.std.specs.Prelude.{◌≡◌, ◌≢◌, ◌⊎◌, List, ℕ, drop, map, string_bytes, IfErr, IfOk};
ghost use Rattle.std.specs.IoError.{error_kind};
ghost use Rattle.std.specs.Process.{exit_status};
ghost use Rattle.cb_runner.specs.Answer.{IsAnswer};
ghost use Rattle.cb_runner.specs.Ending.{Remains, status_of};
ghost use Rattle.cb_runner.specs.Words.{AreFew, SaysNone, SaysRun};
ghost use Rattle.cb_runner.specs.declared.cause.Cause.{Cause};

use cb_io::{DirFolder, Folder, Sink, Source, StreamSink, StreamSource};
use cb_runner::{are_few, run_command};
use std::alloc::Global;
use std::io::ErrorKind;
use std::process::ExitCode;
use std::{env, io};

fn main(rt: HostRuntime) -> ExitCode {
    end_of_words(&rt, words(&rt))
}

/// The program's name and the words behind it.
fn words(rt: &HostRuntime) -> io::Result<Vec<String>> {
    let words = env::args(rt)?.collect(rt.alloc())?;
    Ok(words)
}

/// Does what the words behind the program's name say, and gives the end of the program. Where the system gave none, that
/// is the end of want of memory, or of words that are no command, as words that aren't text are none.
fn end_of_words(rt: &HostRuntime, words: io::Result<Vec<String>>) -> ExitCode
    ensures status { (cause : Cause) × (exit_status result ≡ status_of cause) }
    ensures usage { IfOk words (λ words. exit_status result ≡ 120 → AreFew (map string_bytes (drop 1 words.items))
        → SaysNone (map string_bytes (drop 1 words.items)) ⊎ SaysRun (map string_bytes (drop 1 words.items))) }
    ensures many { IfOk words (λ words. ¬ AreFew (map string_bytes (drop 1 words.items)) → exit_status result ≡ 120) }
    ensures none { IfOk words (λ words. SaysNone (map string_bytes (drop 1 words.items))
        → (exit_status result ≡ 120) ⊎ (exit_status result ≡ 127)) }
    ensures memory { IfErr words (λ error. error_kind error ≡ ErrorKind.OutOfMemory → exit_status result ≡ 119) }
    ensures unread { IfErr words (λ error. error_kind error ≢ ErrorKind.OutOfMemory
        → (exit_status result ≡ 120) ⊎ (exit_status result ≡ 127)) }
{
    match words {
        Ok(words) => run(rt, behind_name(words.as_slice())),
        Err(error) => end_without_words(rt, error.kind()),
    }
}

/// All words but the first, which is the program's name.
fn behind_name(words: &[String]) -> &[String]
    ensures { result.now ≡ drop 1 words.now }
{
    match words {
        [] => words,
        [_, rest @ ..] => rest,
    }
}

/// The end where the words couldn't be read.
fn end_without_words(rt: &HostRuntime, kind: ErrorKind) -> ExitCode
    ensures status { (cause : Cause) × (exit_status result ≡ status_of cause) }
    ensures memory { kind ≡ ErrorKind.OutOfMemory → exit_status result ≡ 119 }
    ensures unread { kind ≢ ErrorKind.OutOfMemory → (exit_status result ≡ 120) ⊎ (exit_status result ≡ 127) }
{
    match kind {
        ErrorKind::OutOfMemory => ExitCode::from(119),
        _ => run(rt, &[]),
    }
}

/// Does what the words say, over the files and the standard streams of the system, and gives the end of the
/// program. Too many words, or too long ones, are no command, and then nothing is written.
fn run(rt: &HostRuntime, words: &[String]) -> ExitCode
    ensures status { (cause : Cause) × (exit_status result ≡ status_of cause) }
    ensures usage { exit_status result ≡ 120 → AreFew (map string_bytes words.now)
        → SaysNone (map string_bytes words.now) ⊎ SaysRun (map string_bytes words.now) }
    ensures many { ¬ AreFew (map string_bytes words.now) → exit_status result ≡ 120 }
    ensures none { SaysNone (map string_bytes words.now) → (exit_status result ≡ 120) ⊎ (exit_status result ≡ 127) }
{
    if are_few(words) {
        run_few(rt, words)
    } else {
        ExitCode::from(120)
    }
}

/// The same for words that are few and short enough.
fn run_few(rt: &HostRuntime, words: &[String]) -> ExitCode
    requires { AreFew (map string_bytes words.now) }
    ensures status { (cause : Cause) × (exit_status result ≡ status_of cause) }
    ensures usage { exit_status result ≡ 120 → SaysNone (map string_bytes words.now) ⊎ SaysRun (map string_bytes words.now) }
    ensures none { SaysNone (map string_bytes words.now) → (exit_status result ≡ 120) ⊎ (exit_status result ≡ 127) }
{
    let mut folder = DirFolder::new(rt);
    let mut input = StreamSource::new(rt.stdin());
    let mut out = StreamSink::new(rt.stdout());
    let mut err = StreamSink::new(rt.stderr());
    exit_code(
        rt.alloc(),
        words,
        &mut folder,
        &mut input,
        &mut out,
        &mut err,
    )
}

/// Does what the words say, and gives the end of the program: the status of the cause, with the whole answer of the call. The heap that a run
/// leaves goes with the program.
fn exit_code<F: Folder, S: Source, O: Sink, E: Sink>(
    alloc: Global,
    words: &[String],
    folder: &mut F,
    input: &mut S,
    out: &mut O,
    err: &mut E,
) -> ExitCode
    requires { AreFew (map string_bytes words.now) }
    ensures answer { (cause : Cause) × (behind : Remains) × (exit_status result ≡ status_of cause) × IsAnswer S.left S.gave (map string_bytes words.now)
        (record { files = F.files folder.old; input = input.old; out = O.taken out.old; err = E.taken err.old })
        (record { files = F.files folder.new; input = input.new; out = O.taken out.new; err = E.taken err.new })
        (record { folder = F.faults folder.old; input = S.faults input.old; out = O.faults out.old; err = E.faults err.old })
        (record { folder = F.faults folder.new; input = S.faults input.new; out = O.faults out.new; err = E.faults err.new })
        cause behind }
{
    ExitCode::from(run_command(alloc, words, folder, input, out, err).status)
}
