// So many words of a line.
ghost use Rattle.std.specs.Prelude.{◌≡◌, ◌≢◌, ℕ, List, [], ◌∷◌, map, MatchOption};

/// The first of some words, and those behind it, or `None` where there is none.
pub(crate) fn front<'a, 'w>(words: &'w [&'a [u8]]) -> Option<(&'a [u8], &'w [&'a [u8]])>
    ensures { MatchOption result (map (λ word. word.now) words.now ≡ [])
        (λ read. map (λ word. word.now) words.now ≡ read.0.now ∷ map (λ word. word.now) read.1.now) }
{
    match words {
        [first, rest @ ..] => Some((first, rest)),
        [] => None,
    }
}

/// The only word, or `None` where there are none or more.
pub(crate) fn one<'a>(words: &[&'a [u8]]) -> Option<&'a [u8]>
    ensures { MatchOption result ((first : List ℕ) → map (λ word. word.now) words.now ≢ first ∷ [])
        (λ first. map (λ word. word.now) words.now ≡ first.now ∷ []) }
{
    match front(words) {
        Some((first, [])) => Some(first),
        _ => None,
    }
}

/// The two words, or `None` where there are fewer or more.
pub(crate) fn two<'a>(words: &[&'a [u8]]) -> Option<(&'a [u8], &'a [u8])>
    ensures { MatchOption result ((first second : List ℕ) → map (λ word. word.now) words.now ≢ first ∷ second ∷ [])
        (λ read. map (λ word. word.now) words.now ≡ read.0.now ∷ read.1.now ∷ []) }
{
    let (first, rest) = front(words)?;
    let second = one(rest)?;
    Some((first, second))
}

/// The three words, or `None` where there are fewer or more.
pub(crate) fn three<'a>(words: &[&'a [u8]]) -> Option<(&'a [u8], &'a [u8], &'a [u8])>
    ensures { MatchOption result ((first second third : List ℕ) → map (λ word. word.now) words.now ≢ first ∷ second ∷ third ∷ [])
        (λ read. map (λ word. word.now) words.now ≡ read.0.now ∷ read.1.now ∷ read.2.now ∷ []) }
{
    let (first, rest) = front(words)?;
    let (second, third) = two(rest)?;
    Some((first, second, third))
}

/// The four words, or `None` where there are fewer or more.
pub(crate) fn four<'a>(words: &[&'a [u8]]) -> Option<(&'a [u8], &'a [u8], &'a [u8], &'a [u8])>
    ensures { MatchOption result ((first second third fourth : List ℕ) → map (λ word. word.now) words.now ≢ first ∷ second ∷ third ∷ fourth ∷ [])
        (λ read. map (λ word. word.now) words.now ≡ read.0.now ∷ read.1.now ∷ read.2.now ∷ read.3.now ∷ []) }
{
    let (first, rest) = front(words)?;
    let (second, third, fourth) = three(rest)?;
    Some((first, second, third, fourth))
}

/// The five words, or `None` where there are fewer or more.
pub(crate) fn five<'a>(
    words: &[&'a [u8]],
) -> Option<(&'a [u8], &'a [u8], &'a [u8], &'a [u8], &'a [u8])>
    ensures { MatchOption result ((first second third fourth fifth : List ℕ) → map (λ word. word.now) words.now ≢ first ∷ second ∷ third ∷ fourth ∷ fifth ∷ [])
        (λ read. map (λ word. word.now) words.now ≡ read.0.now ∷ read.1.now ∷ read.2.now ∷ read.3.now ∷ read.4.now ∷ []) }
{
    let (first, rest) = front(words)?;
    let (second, third, fourth, fifth) = four(rest)?;
    Some((first, second, third, fourth, fifth))
}
