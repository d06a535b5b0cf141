// Graphs and gains, read from lines.
use crate::change::{Change, read_change};
use crate::span::{Span, read_span};
use crate::times::Times;
use cb_dag::Grid;
use std::alloc::{AllocError, Global};

/// The most gains that a word may have.
const MOST_GAINS: u32 = 65_536;

/// A graph, gains for its parts, what the checker is shown in place of the chooser's flow and set, and how often more it is done.
#[derive(Drop)]
pub(crate) struct Case {
    pub grid: Grid,
    pub gains: Vec<i64>,
    pub changes: Vec<Change>,
    pub times: Times,
}

/// The case of a line, if it is one.
pub(crate) fn read_case(alloc: Global, line: &str) -> Result<Option<Case>, AllocError> {
    let mut words = line.split_whitespace();
    let Some(nodes) = words.next() else {
        return Ok(None);
    };
    let Ok(nodes) = nodes.parse::<u16>() else {
        return Ok(None);
    };
    let mut case = Case {
        grid: Grid::make(alloc, u32::from(nodes))?,
        gains: Vec::new(alloc),
        changes: Vec::new(alloc),
        times: Times {
            condense: 0,
            choose: 0,
        },
    };
    for word in words {
        read_word(&mut case, word)?;
    }
    Ok(Some(case))
}

/// Reads edges, a change, how often something is done more, or gains. Others are left out.
fn read_word(case: &mut Case, word: &str) -> Result<(), AllocError> {
    if let Some((from, to)) = word.split_once('>') {
        if let (Some(from), Some(to)) = (read_span(from), read_span(to)) {
            put_edges(&mut case.grid, from, to);
        }
    } else if let Some(change) = read_change(word) {
        case.changes.push(change)?;
    } else if case.times.read(word).is_none() {
        read_gains(&mut case.gains, word)?;
    }
    Ok(())
}

/// Reads a gain, or so many of one.
fn read_gains(gains: &mut Vec<i64>, word: &str) -> Result<(), AllocError> {
    let (times, gain) = word.split_once('*').unwrap_or(("1", word));
    if let (Ok(times), Ok(gain)) = (times.parse::<u32>(), gain.parse::<i64>()) {
        for _ in 0..times.min(MOST_GAINS) {
            gains.push(gain)?;
        }
    }
    Ok(())
}

/// Puts edges from each of some nodes to each of others.
fn put_edges(grid: &mut Grid, from: Span, to: Span) {
    for node in from.first..from.end {
        put_edges_from(grid, node, to);
    }
}

/// Puts edges from a node to each of some.
fn put_edges_from(grid: &mut Grid, from: u32, to: Span) {
    for node in to.first..to.end {
        put_edge(grid, from, node);
    }
}

/// Puts an edge between nodes, where there are these.
fn put_edge(grid: &mut Grid, from: u32, to: u32) {
    let nodes = grid.nodes();
    if from < nodes && to < nodes {
        grid.put(from, to);
    }
}
