// The words of the command `run`.
ghost use Rattle.std.specs.Prelude.{◌≡◌, ◌↔◌, List, ℕ, codes, ◌∷◌, map, string_bytes, IsTrue, MatchOption};
ghost use Rattle.cb_runner.specs.Inner.{run_of};
ghost use Rattle.cb_runner.specs.Words.{IsMain, IsRun, RunIn, Run, Says};

use crate::arguments::{Arguments, arguments_of};
use crate::class_name::names_class;
use crate::limits::limits_of;
use crate::words::is_option;

/// A run of a class in a folder: how many steps it makes at most, how many frames may stand, how many blocks a heap has at most, and its arguments.
#[derive(Clone, Copy, Debug)]
pub(crate) struct RunWords<'a> {
    pub steps: u64,
    pub frames: u32,
    pub blocks: u32,
    pub folder: &'a str,
    pub class: &'a str,
    pub arguments: Arguments<'a>,
}

/// The run that the words say, or `None` where they are another command or none.
pub(crate) fn run_of(words: &[String]) -> Option<RunWords<'_>>
    ensures { MatchOption result ((folder : List ℕ) (run : Run) → Says (map string_bytes words.now) (RunIn folder run) → ⊥)
        (λ run. Says (map string_bytes words.now) (RunIn run.folder.now (run_of run))) }
{
    match words {
        [command, behind @ ..] if command.as_str() == "run" => run_behind(behind),
        _ => None,
    }
}

/// The run that the words behind `run` say, or `None` where they say none.
fn run_behind(words: &[String]) -> Option<RunWords<'_>>
    ensures { MatchOption result ((folder : List ℕ) (run : Run) → IsRun folder run (map string_bytes words.now) → ⊥)
        (λ run. IsRun run.folder.now (run_of run) (map string_bytes words.now)) }
{
    let limits = limits_of(words);
    let [folder, class, behind @ ..] = limits.rest else {
        return None;
    };
    if is_option(folder.as_str()) || !is_main(class.as_str()) {
        return None;
    }
    match arguments_of(behind) {
        Some(arguments) => Some(RunWords {
            steps: limits.steps,
            frames: limits.frames,
            blocks: limits.blocks,
            folder: folder.as_str(),
            class: class.as_str(),
            arguments,
        }),
        None => None,
    }
}

/// Whether a word may stand for MAIN.
fn is_main(word: &str) -> bool
    ensures { IsTrue result ↔ IsMain word.now }
{
    !is_option(word) && names_class(word)
}
