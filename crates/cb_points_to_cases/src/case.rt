// Constraints, read from lines.
use crate::inclusions::read_inclusion;
use crate::tables::{read_callees, read_filter, read_slots};
use crate::words::number;
use cb_points_to::Constraints;
use std::alloc::{AllocError, Global};

/// The most nodes, and sites, that a line may have.
const MOST: u32 = 4096;

/// The constraints of a line, if it has some.
pub(crate) fn read_case(alloc: Global, line: &str) -> Result<Option<Constraints>, AllocError> {
    let mut words = line.split_whitespace();
    let (Some(nodes), Some(sites)) = (words.next(), words.next()) else {
        return Ok(None);
    };
    let (Some(nodes), Some(sites)) = (number(nodes), number(sites)) else {
        return Ok(None);
    };
    let mut constraints = Constraints::make(alloc, nodes.min(MOST), sites.min(MOST))?;
    for word in words {
        if !read_word(alloc, &mut constraints, word)? {
            return Ok(None);
        }
    }
    Ok(Some(constraints))
}

/// Does what a word says, and tells whether it was understood.
fn read_word(alloc: Global, constraints: &mut Constraints, word: &str) -> Result<bool, AllocError> {
    let Some((name, rest)) = word.split_once(':') else {
        return Ok(false);
    };
    match name {
        "owner" => Ok(put_owner(constraints, rest).is_some()),
        "static" => Ok(put_static(constraints, rest).is_some()),
        "filter" => {
            let filter = read_filter(alloc, constraints.sites(), rest)?;
            constraints.add_filter(filter)?;
            Ok(true)
        }
        "slots" => put_slots(alloc, constraints, rest),
        "calls" => put_callees(alloc, constraints, rest),
        _ => put_inclusion(alloc, constraints, name, rest),
    }
}

/// Gives a node an owner, as `3=1`.
fn put_owner(constraints: &mut Constraints, rest: &str) -> Option<()> {
    let (node, site) = rest.split_once('=')?;
    let node = number(node)?;
    let site = number(site)?;
    if node >= constraints.nodes() || site >= constraints.sites() {
        return None;
    }
    constraints.set_owner(node, site);
    Some(())
}

/// Says that a node stands for a static.
fn put_static(constraints: &mut Constraints, rest: &str) -> Option<()> {
    let node = number(rest)?;
    if node >= constraints.nodes() {
        return None;
    }
    constraints.set_static(node);
    Some(())
}

/// Adds a table of slots, if it names what is there.
fn put_slots(alloc: Global, constraints: &mut Constraints, rest: &str) -> Result<bool, AllocError> {
    let Some(slots) = read_slots(alloc, rest)? else {
        return Ok(false);
    };
    if !constraints.fit_slots(&slots) {
        return Ok(false);
    }
    constraints.add_slots(slots)?;
    Ok(true)
}

/// Adds a table of callees, if it names what is there.
fn put_callees(
    alloc: Global,
    constraints: &mut Constraints,
    rest: &str,
) -> Result<bool, AllocError> {
    let Some(callees) = read_callees(alloc, rest)? else {
        return Ok(false);
    };
    if !constraints.fit_callees(&callees) {
        return Ok(false);
    }
    constraints.add_calls(callees)?;
    Ok(true)
}

/// Adds an inclusion, if it names what is there.
fn put_inclusion(
    alloc: Global,
    constraints: &mut Constraints,
    name: &str,
    rest: &str,
) -> Result<bool, AllocError> {
    let Some(inclusion) = read_inclusion(alloc, name, rest)? else {
        return Ok(false);
    };
    if !constraints.fits(&inclusion) {
        return Ok(false);
    }
    constraints.add(inclusion)?;
    Ok(true)
}
