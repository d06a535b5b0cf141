// The words that are arguments of a run, and their texts.
ghost use Rattle.std.specs.Prelude.{◌≡◌, ◌++◌, ◌<◌, ◌≤◌, ◌^◌, ◌↔◌, [], List as Items, ℕ, codes, length, map, string_bytes, IfOk, IsTrue, MatchOption, OnOk};
ghost use Rattle.std.specs.List.{All, AllByRecursion, AllWithin, HoldsAt};
ghost use Rattle.std.specs.Char.Escape.{encode_utf16};
ghost use Rattle.cb_runner.specs.Inner.{AreTexts, words_of};
ghost use Rattle.cb_runner.specs.Words.{AreArguments, AreFew, ArePlain, IsDashed, IsShort, text_units};
ghost use Rattle.cb_safety.specs.Strings.{IsText};

use crate::class_name::push_units;
use crate::words::is_option;
use cb_plain::OutOfMemory;
use cb_text::{List, Units};
use std::alloc::Global;

/// The words that are arguments, which stand before and behind a word `--`.
#[derive(Clone, Copy, Debug)]
pub(crate) struct Arguments<'a> {
    pub front: &'a [String],
    pub back: &'a [String],
}

/// The arguments that the words behind MAIN are, or `None` where one of them is kept for options.
pub(crate) fn arguments_of(words: &[String]) -> Option<Arguments<'_>>
    ensures { MatchOption result ((arguments : Items (Items ℕ)) → AreArguments (map string_bytes words.now) arguments → ⊥)
        (λ arguments. AreArguments (map string_bytes words.now) (words_of arguments)) }
{
    let (front, behind) = words.split_at(plain_count(words));
    match behind {
        [] => Some(Arguments {
            front,
            back: behind,
        }),
        [word, back @ ..] => {
            if word.as_str() == "--" {
                Some(Arguments { front, back })
            } else {
                None
            }
        }
    }
}

/// How many words stand before the first one that is kept for options.
fn plain_count(words: &[String]) -> usize
    ensures within { result ≤ length words.now }
    ensures plain { AllWithin (λ word. ¬ IsDashed (string_bytes word)) words.now 0 result }
    ensures first { result < length words.now → HoldsAt (λ word. IsDashed (string_bytes word)) words.now result }
{
    let mut count = 0;
    for word in words {
        if is_dashed(word.as_str()) {
            return count;
        }
        count += 1;
    }
    count
}

/// Whether a word is kept for options.
fn is_dashed(word: &str) -> bool
    ensures { IsTrue result ↔ IsDashed word.now }
{
    is_option(word) && word.len() > 1
}

/// The texts of arguments.
pub(crate) fn texts_of(alloc: Global, arguments: &Arguments<'_>) -> Result<List<Units>, OutOfMemory>
    requires { AreFew (words_of arguments.now) }
    ensures are { IfOk result (λ texts. texts ≡ map text_units (words_of arguments.now)) }
    ensures texts { IfOk result AreTexts }
{
    let mut texts = List::new(alloc);
    push_texts(alloc, arguments.front, &mut texts)?;
    push_texts(alloc, arguments.back, &mut texts)?;
    Ok(texts)
}

/// Adds the texts of words.
fn push_texts(alloc: Global, words: &[String], texts: &mut List<Units>) -> Result<(), OutOfMemory>
    requires { All IsShort (map string_bytes words.now) }
    ensures are { OnOk result (texts.new ≡ texts.old ++ map text_units (map string_bytes words.now)) }
    ensures texts { OnOk result (AllByRecursion IsText texts.old → AllByRecursion IsText texts.new) }
{
    for word in words {
        texts.push(text_of(alloc, word.as_str())?)?;
    }
    Ok(())
}

/// The UTF-16 units of the characters of a word.
fn text_of(alloc: Global, word: &str) -> Result<Units, OutOfMemory>
    requires { IsShort word.now }
    ensures is { IfOk result (λ text. text ≡ text_units word.now) }
    ensures text { IfOk result IsText }
{
    let mut text = Units::new(alloc);
    for character in word.chars() {
        push_units(character, &mut text)?;
    }
    Ok(text)
}
