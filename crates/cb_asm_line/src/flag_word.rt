// Words of access flags, read.
ghost use Rattle.std.specs.Prelude.{◌≡◌, ◌≢◌, ℕ, ◌^◌, ◌<◌, ◌≤◌, ◌*◌, ◌++◌, List, length, map, MatchOption, option_map, slice_get};
ghost use Rattle.std.specs.Option.{ForSome};
ghost use Rattle.cb_asm_line.specs.Flags.{class_flags, field_flags, flags_word, method_flags};
ghost use Rattle.cb_asm_line.specs.Inner.{AreSet, word_behind};

use crate::flag::{CLASS_FLAGS, FIELD_FLAGS, METHOD_FLAGS};
use crate::mnemonic::is_same;

/// The flags of a class that a word is, or `None` where it is none.
pub(crate) fn class_flags_of(word: &[u8]) -> Option<u16>
    ensures { MatchOption result ((flags : ℕ) → flags < 2 ^ 16 → word.now ≢ flags_word class_flags flags)
        (λ flags. word.now ≡ flags_word class_flags flags) }
{
    flags_in(&CLASS_FLAGS, word)
}

/// Those of a field.
pub(crate) fn field_flags_of(word: &[u8]) -> Option<u16>
    ensures { MatchOption result ((flags : ℕ) → flags < 2 ^ 16 → word.now ≢ flags_word field_flags flags)
        (λ flags. word.now ≡ flags_word field_flags flags) }
{
    flags_in(&FIELD_FLAGS, word)
}

/// Those of a method.
pub(crate) fn method_flags_of(word: &[u8]) -> Option<u16>
    ensures { MatchOption result ((flags : ℕ) → flags < 2 ^ 16 → word.now ≢ flags_word method_flags flags)
        (λ flags. word.now ≡ flags_word method_flags flags) }
{
    flags_in(&METHOD_FLAGS, word)
}

/// The flags that a word is, by the words of all.
fn flags_in(words: &[&'static str; 16], word: &[u8]) -> Option<u16>
    ensures { MatchOption result ((flags : ℕ) → flags < 2 ^ 16 → word.now ≢ flags_word (map (λ word. word.now) words.now) flags)
        (λ flags. word.now ≡ flags_word (map (λ word. word.now) words.now) flags) }
{
    if is_same("0", word) {
        Some(0)
    } else {
        set_in(words.as_slice(), word, false)
    }
}

/// The flags whose words are a word, behind others or not, where there is a flag then.
fn set_in(words: &[&'static str], word: &[u8], begun: bool) -> Option<u16>
    requires { length words.now ≤ 16 }
    ensures { MatchOption result ((flags : ℕ) → AreSet begun (map (λ word. word.now) words.now) word.now flags → ⊥)
        (λ flags. AreSet begun (map (λ word. word.now) words.now) word.now flags) }
{
    match words {
        [] if begun && word.is_empty() => Some(0),
        [] => None,
        [first, rest @ ..] => {
            let unset = set_in(rest, word, begun);
            match behind_word(word, begun, first) {
                Some(behind) => match set_in(rest, behind, true) {
                    Some(flags) => Some(2 * flags + 1),
                    None => doubled(unset),
                },
                None => doubled(unset),
            }
        }
    }
}

/// Twice a number, if there is one.
fn doubled(number: Option<u16>) -> Option<u16>
    requires { ForSome number (λ number. number < 2 ^ 15) }
    ensures { result ≡ option_map (λ number. 2 * number) number }
{
    match number {
        Some(number) => Some(2 * number),
        None => None,
    }
}

/// What is behind a word at the front of another, with a `+` before it where it isn't the first.
fn behind_word<'a>(word: &'a [u8], begun: bool, first: &str) -> Option<&'a [u8]>
    ensures { MatchOption result ((rest : List ℕ) → word.now ≢ word_behind begun first.now ++ rest)
        (λ rest. word.now ≡ word_behind begun first.now ++ rest.now) }
{
    if begun {
        match word {
            [mark, rest @ ..] if *mark == b'+' => behind_front(rest, first.as_bytes()),
            _ => None,
        }
    } else {
        behind_front(word, first.as_bytes())
    }
}

/// What is behind a front of a word.
pub(crate) fn behind_front<'a>(word: &'a [u8], front: &[u8]) -> Option<&'a [u8]>
    ensures { MatchOption result ((rest : List ℕ) → word.now ≢ front.now ++ rest) (λ rest. word.now ≡ front.now ++ rest.now) }
{
    word.strip_prefix(front)
}
