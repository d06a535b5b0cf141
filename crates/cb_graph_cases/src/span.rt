// Nodes one after the other.

/// Nodes from the first up to the end, which is none of them.
#[derive(Clone, Copy)]
pub(crate) struct Span {
    pub first: u32,
    pub end: u32,
}

/// The nodes of a word (as `3` or `0-511`), if it has some.
pub(crate) fn read_span(word: &str) -> Option<Span> {
    let (first, last) = word.split_once('-').unwrap_or((word, word));
    let first = first.parse::<u32>().ok()?;
    let last = last.parse::<u32>().ok()?;
    Some(Span {
        first,
        end: last.saturating_add(1),
    })
}
