// Numbers, bytes and units in rows.
use crate::Trouble;
use std::alloc::{AllocError, Global};
use std::str::FromStr;

/// The number that a word is in decimal digits.
pub fn number_of<N: FromStr>(word: &str) -> Result<N, Trouble>
where
    N::Err: Drop,
{
    word.parse::<N>().map_err(|_| Trouble::NotUnderstood)
}

/// The bytes that words of two hexadecimal digits tell.
pub fn bytes_of(alloc: Global, digits: &str) -> Result<Vec<u8>, Trouble> {
    let mut bytes = Vec::new(alloc);
    for word in digits.split_whitespace() {
        let byte = u8::from_str_radix(word, 16).map_err(|_| Trouble::NotUnderstood)?;
        bytes.push(byte)?;
    }
    Ok(bytes)
}

/// The units of a text whose bytes are their codes.
pub fn units_of(alloc: Global, text: &str) -> Result<Vec<u16>, AllocError> {
    text.as_bytes()
        .iter()
        .map(|byte| u16::from(*byte))
        .collect(alloc)
}
