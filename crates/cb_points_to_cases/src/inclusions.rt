// Inclusions, read from words.
use crate::words::{maybe, numbers, three, two};
use cb_points_to::Inclusion;
use std::alloc::{AllocError, Global};

/// The inclusion of a word, if it is one.
pub(crate) fn read_inclusion(
    alloc: Global,
    name: &str,
    rest: &str,
) -> Result<Option<Inclusion>, AllocError> {
    if name == "call" {
        return read_call(alloc, rest);
    }
    Ok(read_plain(name, rest))
}

/// The inclusion of a word, if it is one that isn't a call.
fn read_plain(name: &str, rest: &str) -> Option<Inclusion> {
    match name {
        "has" => {
            let (node, site) = two(rest)?;
            Some(Inclusion::Has { node, site })
        }
        "each" => {
            let (base, slots, site) = three(rest)?;
            Some(Inclusion::HasEach { base, slots, site })
        }
        "copy" => {
            let (from, to) = two(rest)?;
            Some(Inclusion::Copy { from, to })
        }
        "through" => {
            let (from, to, filter) = three(rest)?;
            Some(Inclusion::Through { from, to, filter })
        }
        "load" => {
            let (base, slots, to) = three(rest)?;
            Some(Inclusion::Load { base, slots, to })
        }
        "store" => {
            let (from, base, slots) = three(rest)?;
            Some(Inclusion::Store { from, base, slots })
        }
        "between" => {
            let (source, target, slots) = three(rest)?;
            Some(Inclusion::Between {
                source,
                target,
                slots,
            })
        }
        _ => None,
    }
}

/// A call, as `receiver,calls/arguments/result`.
fn read_call(alloc: Global, rest: &str) -> Result<Option<Inclusion>, AllocError> {
    let Some((head, behind)) = rest.split_once('/') else {
        return Ok(None);
    };
    let Some((arguments, result)) = behind.split_once('/') else {
        return Ok(None);
    };
    let (Some((receiver, calls)), Some(arguments), Some(result)) = (
        two(head),
        numbers(alloc, arguments)?,
        maybe(result),
    ) else {
        return Ok(None);
    };
    Ok(Some(Inclusion::Call {
        receiver,
        calls,
        arguments,
        result,
    }))
}
