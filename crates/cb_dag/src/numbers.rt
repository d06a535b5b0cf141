// Parts that are numbered by their first nodes.
ghost use Rattle.std.specs.Prelude.{◌≡◌, ◌+◌, ◌<◌, ◌≤◌, ◌^◌, [], ◌∷◌, ◌++◌, length, slice_index, slice_set, IfOk};
ghost use Rattle.std.specs.List.{All};
ghost use Rattle.cb_dag.specs.Numbers.{IsNumbered, IsNumbering};

use cb_plain::OutOfMemory;
use std::alloc::Global;

/// How many parts there are, and the number of each node's part.
#[derive(Drop)]
pub(crate) struct Numbering {
    pub parts: u32,
    pub part_of: Vec<u32>,
}

/// Numbers parts from 0 by their first nodes, of the roots of all nodes. `OutOfMemory` where memory was not to be had.
pub(crate) fn number_parts(alloc: Global, roots: &[u32]) -> Result<Numbering, OutOfMemory>
    requires within { All (λ root. root < length roots.now) roots.now }
    requires few { length roots.now < 2 ^ 32 }
    ensures { IfOk result (λ numbering. IsNumbered roots.now (length roots.now) numbering.parts numbering.part_of.items) }
{
    let nodes = roots.len() as u32;
    let mut numbers = vec![in alloc; nodes; roots.len()]?;
    let mut parts = 0;
    let mut part_of = Vec::new(alloc);
    for root in roots {
        let root = *root as usize;
        parts = number_root(nodes, &mut numbers, root, parts);
        part_of.push(numbers[root])?;
    }
    Ok(Numbering { parts, part_of })
}

/// Gives a root the next number, unless it has one, and tells the number that is next then.
fn number_root(nodes: u32, numbers: &mut Vec<u32>, root: usize, parts: u32) -> u32
    requires root { root < length numbers.old.items }
    requires few { parts < nodes }
    ensures len { length numbers.new.items ≡ length numbers.old.items }
    ensures known { slice_index numbers.old.items root < nodes → (result ≡ parts) × (numbers.new.items ≡ numbers.old.items) }
    ensures new { nodes ≤ slice_index numbers.old.items root → (result ≡ parts + 1) × (numbers.new.items ≡ slice_set numbers.old.items root parts) }
{
    if numbers[root] < nodes {
        return parts;
    }
    numbers[root] = parts;
    parts + 1
}
