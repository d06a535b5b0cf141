// The words of the command line.
ghost use Rattle.std.specs.Prelude.{◌≡◌, ◌∷◌, [], ◌↔◌, List, ℕ, codes, map, string_bytes, IsTrue, MatchOption};
ghost use Rattle.cb_runner.specs.Inner.{said};
ghost use Rattle.cb_runner.specs.Words.{IsList, IsOption, Says, SaysNone};

use crate::run_words::{RunWords, run_of};

/// A command.
#[derive(Clone, Copy, Debug)]
pub(crate) enum Command<'a> {
    /// `run [--steps N] [--frames N] FOLDER MAIN [ARGS]`
    Run(RunWords<'a>),
    /// `list PATH`
    List { path: &'a str },
    /// `asm`
    Assemble,
}

/// The command that the words say, or `None` where they say none.
pub(crate) fn command_of(words: &[String]) -> Option<Command<'_>>
    ensures { MatchOption result (SaysNone (map string_bytes words.now))
        (λ command. Says (map string_bytes words.now) (said command)) }
{
    if let Some(run) = run_of(words) {
        return Some(Command::Run(run));
    }
    if let Some(path) = path_of_list(words) {
        return Some(Command::List { path });
    }
    if is_assemble(words) {
        Some(Command::Assemble)
    } else {
        None
    }
}

/// The path of the command `list PATH`, or `None` where the words are another or none.
fn path_of_list(words: &[String]) -> Option<&str>
    ensures { MatchOption result ((path : List ℕ) → IsList path (map string_bytes words.now) → ⊥)
        (λ path. IsList path.now (map string_bytes words.now)) }
{
    let [command, path] = words else {
        return None;
    };
    if command.as_str() == "list" && !is_option(path.as_str()) {
        Some(path.as_str())
    } else {
        None
    }
}

/// Whether the words are the command `asm`.
fn is_assemble(words: &[String]) -> bool
    ensures { IsTrue result ↔ (map string_bytes words.now ≡ codes "asm" ∷ []) }
{
    let [command] = words else {
        return false;
    };
    command.as_str() == "asm"
}

/// Whether a word begins as an option does.
pub(crate) fn is_option(word: &str) -> bool
    ensures { IsTrue result ↔ IsOption word.now }
{
    word.as_bytes().first() == Some(&b'-')
}
