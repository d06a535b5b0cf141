// Tables, read from words.
ghost use Rattle.std.specs.Prelude.{◌≡◌, length, IfOk};

use crate::words::{maybe, number, numbers};
use cb_plain::{List, Marks};
use cb_points_to::{Callee, Callees, Slot, Slots};
use std::alloc::{AllocError, Global};

/// The marks of so many sites: of those that a word names.
pub(crate) fn read_filter(alloc: Global, sites: u32, rest: &str) -> Result<Marks, AllocError>
    ensures { IfOk result (λ marks. length marks ≡ sites) }
{
    let mut marks = List::new(alloc);
    for site in 0..sites {
        marks.push(names(rest, site))?;
    }
    Ok(marks)
}

/// Whether a word names a number.
fn names(word: &str, wanted: u32) -> bool {
    for part in word.split(',') {
        if number(part) == Some(wanted) {
            return true;
        }
    }
    false
}

/// The slots of a word, as `0=5,2=6`, if it has some.
pub(crate) fn read_slots(alloc: Global, rest: &str) -> Result<Option<Slots>, AllocError> {
    let mut slots = List::new(alloc);
    if rest.is_empty() {
        return Ok(Some(slots));
    }
    for part in rest.split(',') {
        match read_slot(part) {
            Some(slot) => slots.push(slot)?,
            None => return Ok(None),
        }
    }
    Ok(Some(slots))
}

/// A slot, as `0=5`.
fn read_slot(part: &str) -> Option<Slot> {
    let (site, node) = part.split_once('=')?;
    Some(Slot {
        site: number(site)?,
        node: number(node)?,
    })
}

/// The callees of a word, as `0=4/5,6/7;1=8//`, if it has some.
pub(crate) fn read_callees(alloc: Global, rest: &str) -> Result<Option<Callees>, AllocError> {
    let mut callees = List::new(alloc);
    if rest.is_empty() {
        return Ok(Some(callees));
    }
    for part in rest.split(';') {
        match read_callee(alloc, part)? {
            Some(callee) => callees.push(callee)?,
            None => return Ok(None),
        }
    }
    Ok(Some(callees))
}

/// A callee, as `0=4/5,6/7`.
fn read_callee(alloc: Global, part: &str) -> Result<Option<Callee>, AllocError> {
    let Some((site, behind)) = part.split_once('=') else {
        return Ok(None);
    };
    let Some((receiver, behind)) = behind.split_once('/') else {
        return Ok(None);
    };
    let Some((arguments, result)) = behind.split_once('/') else {
        return Ok(None);
    };
    let (Some(site), Some(receiver), Some(arguments), Some(result)) = (
        number(site),
        number(receiver),
        numbers(alloc, arguments)?,
        maybe(result),
    ) else {
        return Ok(None);
    };
    Ok(Some(Callee {
        site,
        receiver,
        arguments,
        result,
    }))
}
