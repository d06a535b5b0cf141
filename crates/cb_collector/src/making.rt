// What a collecting store begins with.
ghost use Rattle.std.specs.Prelude.{◌≡◌, true, replicate, IfOk};
ghost use Rattle.cb_collector.specs.Known.{facts_at_first};

use cb_plain::{Facts, List, OutOfMemory, Set};
use std::alloc::Global;

/// What is known of so many parts before anything was placed in them, where none is held.
pub(crate) fn first_facts(alloc: Global, parts: u32) -> Result<List<Facts>, OutOfMemory>
    ensures { IfOk result (λ facts. facts ≡ facts_at_first parts) }
{
    let mut facts = List::with_capacity(alloc, parts as usize)?;
    for part in 0..parts {
        facts.push(Facts {
            turn: 0,
            part,
            used: 0,
            kept: 0,
            fresh: 0,
            last_live: 1,
            last_used: 4,
            held: false,
        })?;
    }
    Ok(facts)
}

/// The set of all of so many parts.
pub(crate) fn all_parts(alloc: Global, parts: u32) -> Result<Set, OutOfMemory>
    ensures { IfOk result (λ set. set ≡ replicate parts true) }
{
    let mut set = Set::make(alloc, parts)?;
    for part in 0..parts {
        set.put(part, true);
    }
    Ok(set)
}
