// Numbers in the text.
use crate::trouble::Trouble;
use std::num::NonZeroUsize;

/// The decimal number that a word is.
pub(crate) fn number_of(word: &str) -> Result<usize, Trouble> {
    word.parse::<usize>().map_err(|_| Trouble::NotUnderstood)
}

/// The decimal number that a word is, other than 0.
pub(crate) fn count_of(word: &str) -> Result<NonZeroUsize, Trouble> {
    NonZeroUsize::new(number_of(word)?).ok_or(Trouble::NotUnderstood)
}

/// The byte that two hexadecimal digits are.
pub(crate) fn byte_of(word: &str) -> Result<u8, Trouble> {
    if word.len() != 2 {
        return Err(Trouble::NotUnderstood);
    }
    u8::from_str_radix(word, 16).map_err(|_| Trouble::NotUnderstood)
}

/// A count as a number of a program.
pub(crate) fn narrow(count: usize) -> Result<u32, Trouble> {
    u32::try_from(count).map_err(|_| Trouble::UnknownInProgram)
}
