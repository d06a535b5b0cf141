// Lines that are read more than once.
use crate::number::number_of;
use crate::trouble::Trouble;
use std::alloc::{AllocError, Global};

/// Lines that are read once for each of some numbers.
#[derive(Drop)]
pub(crate) struct Repeat {
    /// The first number.
    pub first: usize,
    /// The last number.
    pub last: usize,
    /// The lines, with the number left open.
    pub lines: Vec<String>,
}

impl Repeat {
    /// No lines yet, for the numbers that a line gives.
    pub fn new(alloc: Global, rest: &str) -> Result<Self, Trouble> {
        let Some((first, last)) = rest.split_once(' ') else {
            return Err(Trouble::NotUnderstood);
        };
        Ok(Repeat {
            first: number_of(first)?,
            last: number_of(last)?,
            lines: Vec::new(alloc),
        })
    }
}

/// A line with a number put in for each `{n}`, and the next number for each `{n+1}`.
pub(crate) fn filled(alloc: Global, line: &str, number: usize) -> Result<String, AllocError> {
    let line = put_in(alloc, line, "{n}", number)?;
    put_in(alloc, line.as_str(), "{n+1}", number.saturating_add(1))
}

/// A line with a number put in for each mark.
fn put_in(alloc: Global, line: &str, mark: &str, number: usize) -> Result<String, AllocError> {
    let mut text = String::new(alloc);
    for (index, piece) in line.split(mark).enumerate() {
        if index > 0 {
            write!(text, "{number}")?;
        }
        text.push_str(piece)?;
    }
    Ok(text)
}
