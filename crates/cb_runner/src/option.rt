// An option and its value.
ghost use Rattle.std.specs.Prelude.{ℕ, map, string_bytes, MatchOption};
ghost use Rattle.cb_runner.specs.Inner.{TellsOption};
ghost use Rattle.cb_runner.specs.Words.{TellsNumber};

/// The most digits of a number.
const MOST_DIGITS: usize = 20;

/// The value of the option that stands at the front of words.
pub(crate) fn value_told(name: &str, most: u64, words: &[String]) -> Option<u64>
    ensures { MatchOption result ((value : ℕ) → TellsOption name.now most value (map string_bytes words.now) → ⊥)
        (λ value. TellsOption name.now most value (map string_bytes words.now)) }
{
    let [first, number, ..] = words else {
        return None;
    };
    if first.as_str() == name {
        number_of(number.as_str(), most)
    } else {
        None
    }
}

/// The number from 1 to `most` that a word tells.
fn number_of(word: &str, most: u64) -> Option<u64>
    ensures { MatchOption result ((number : ℕ) → TellsNumber most number word.now → ⊥)
        (λ number. TellsNumber most number word.now) }
{
    if word.len() > MOST_DIGITS || word.as_bytes().first() == Some(&b'+') {
        return None;
    }
    match word.parse::<u64>() {
        Ok(number) if 1 <= number && number <= most => Some(number),
        Ok(_) => None,
        Err(_) => None,
    }
}
