// Numbers of words.
use cb_plain::{List, Numbers};
use std::alloc::{AllocError, Global};

/// The numbers of a word, if it has two and a comma between them.
pub(crate) fn two(word: &str) -> Option<(u32, u32)> {
    let (first, second) = word.split_once(',')?;
    Some((number(first)?, number(second)?))
}

/// The numbers of a word, if it has three.
pub(crate) fn three(word: &str) -> Option<(u32, u32, u32)> {
    let (first, rest) = word.split_once(',')?;
    let (second, third) = two(rest)?;
    Some((number(first)?, second, third))
}

/// The number that a word is.
pub(crate) fn number(word: &str) -> Option<u32> {
    word.parse::<u32>().ok()
}

/// The number that a word is, or none where it is empty.
pub(crate) fn maybe(word: &str) -> Option<Option<u32>> {
    if word.is_empty() {
        return Some(None);
    }
    Some(Some(number(word)?))
}

/// The numbers of a word, with commas between them.
pub(crate) fn numbers(alloc: Global, word: &str) -> Result<Option<Numbers>, AllocError> {
    let mut all = List::new(alloc);
    if word.is_empty() {
        return Ok(Some(all));
    }
    for part in word.split(',') {
        match number(part) {
            Some(number) => all.push(number)?,
            None => return Ok(None),
        }
    }
    Ok(Some(all))
}
