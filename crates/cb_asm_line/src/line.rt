// Lines of a text, and words of a line.
ghost use Rattle.std.specs.Prelude.{◌≡◌, ◌≢◌, ◌++◌, ◌<◌, ◌==◌, [], ◌∷◌, length, position, map, IfOk, IfSome, MatchOption};
ghost use Rattle.std.specs.List.{AllByRecursion, join_with_byte};
ghost use Rattle.cb_asm_line.specs.Inner.{AreWords, IsBare, IsLast, Lacks, begins_quoted};
ghost use Rattle.cb_asm_line.specs.Lines.{lines_of, newline, space, words_of};

use std::alloc::{AllocError as OutOfMemory, Global};

/// The first line of a text without its newline, and what is behind it, or `None` where there is no newline. Takes time in
/// the length of that line.
pub fn first_line(text: &[u8]) -> Option<(&[u8], &[u8])>
    ensures cut { MatchOption result (AllByRecursion (λ unit. unit ≢ newline) text.now)
        (λ read. AllByRecursion (λ unit. unit ≢ newline) read.0.now × (text.now ≡ read.0.now ++ newline ∷ read.1.now)) }
    ensures first { MatchOption result (AllByRecursion (λ unit. unit ≢ newline) text.now)
        (λ read. lines_of text.now ≡ (read.0.now ++ newline ∷ []) ∷ lines_of read.1.now) }
{
    cut(text, b'\n')
}

/// The first word of a line, and what is behind the space behind it, or `None` where there is no space.
pub(crate) fn first_word(line: &[u8]) -> Option<(&[u8], &[u8])>
    ensures cut { MatchOption result (Lacks space line.now)
        (λ read. Lacks space read.0.now × (line.now ≡ read.0.now ++ space ∷ read.1.now)) }
    ensures first { MatchOption result (words_of line.now ≡ line.now ∷ [])
        (λ read. words_of line.now ≡ read.0.now ∷ words_of read.1.now) }
{
    cut(line, b' ')
}

/// What stands before the first of a unit in a text, and what is behind it, or `None` where there is none.
pub(crate) fn cut(text: &[u8], unit: u8) -> Option<(&[u8], &[u8])>
    ensures { MatchOption result (Lacks unit text.now)
        (λ read. Lacks unit read.0.now × (text.now ≡ read.0.now ++ unit ∷ read.1.now)) }
{
    match place_of(text, unit) {
        Some(place) => Some((&text[..place], &text[place + 1..])),
        None => None,
    }
}

/// The place of the first of a unit in a text.
fn place_of(text: &[u8], unit: u8) -> Option<usize>
    ensures place { result ≡ position (λ each. each == unit) text.now }
    ensures within { IfSome result (λ place. place < length text.now) }
{
    text.iter().position(|each| *each == unit)
}

/// The words of a line. A text in quotes is one, which stands last.
pub(crate) fn words<'a>(alloc: Global, line: &'a [u8]) -> Result<Vec<&'a [u8]>, OutOfMemory>
    ensures whole { IfOk result (λ words. join_with_byte space (map (λ word. word.now) words.items) ≡ line.now) }
    ensures apart { IfOk result (λ words. AreWords (map (λ word. word.now) words.items)) }
{
    let mut words = Vec::new(alloc);
    let mut rest = line;
    while let Some((word, behind)) = bare_word(rest) {
        words.push(word)?;
        rest = behind;
    }
    words.push(rest)?;
    Ok(words)
}

/// The first word of a line that is no text in quotes, and what is behind the space behind it, or `None` where the line is
/// one word.
fn bare_word(line: &[u8]) -> Option<(&[u8], &[u8])>
    ensures { MatchOption result (IsLast line.now)
        (λ read. IsBare read.0.now × (line.now ≡ read.0.now ++ space ∷ read.1.now)) }
{
    if is_quoted(line) {
        None
    } else {
        first_word(line)
    }
}

/// Whether a quote stands first.
fn is_quoted(line: &[u8]) -> bool
    ensures { result ≡ begins_quoted line.now }
{
    match line {
        [first, ..] => *first == b'"',
        [] => false,
    }
}
