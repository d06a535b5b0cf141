// The second search through a graph: nodes that lead to a root which leads to them.
ghost use Rattle.std.specs.Prelude.{◌≡◌, ◌<◌, ◌≤◌, true, ℕ, List, [], ◌∷◌, length, slice_index, IfOk, OnOk};
ghost use Rattle.std.specs.List.{All};
ghost use Rattle.cb_dag.specs.Graphs.{HasEdge};
ghost use Rattle.cb_dag.specs.Search.{AreRoots, ComesBack, IsFinishing, IsGathering, IsTurned, is_in, roots_left};

use crate::Grid;
use crate::stack::Stack;
use cb_plain::OutOfMemory;
use std::alloc::Global;

/// For each node of a graph the root of its part, one of the part's nodes, of the nodes as a search left them. The search goes back along edges from
/// the node that was left last, and then from the last one that has no root yet. Takes time in the nodes, the edges, and the marks of the grid
/// over 64. `OutOfMemory` where memory was not to be had.
pub(crate) fn roots(alloc: Global, grid: &Grid, left: Stack) -> Result<Vec<u32>, OutOfMemory>
    requires finishing { IsFinishing (HasEdge grid.now) (length grid.now) left }
    requires all { (node : ℕ) → node < length grid.now → is_in node left ≡ true }
    requires nodes { (node : ℕ) → is_in node left ≡ true → node < length grid.now }
    ensures roots { IfOk result (λ roots. AreRoots grid.now roots.items) }
    ensures within { IfOk result (λ roots. All (λ root. root < length grid.now) roots.items) }
{
    let nodes = grid.nodes();
    let turned = grid.turned(alloc)?;
    let mut roots = vec![in alloc; nodes; nodes as usize]?;
    let mut waiting = Stack::new(alloc);
    let mut left = left;
    while let Some(root) = left.pop() {
        gather(grid, &turned, root, &mut roots, &mut waiting)?;
    }
    Ok(roots)
}

/// Makes a node the root of those that lead to it and have none, unless it has one itself.
fn gather(
    grid: &Grid,
    turned: &Grid,
    root: u32,
    roots: &mut Vec<u32>,
    waiting: &mut Stack,
) -> Result<(), OutOfMemory>
    requires turned { IsTurned grid.now turned.now }
    requires within { root < length grid.now }
    requires before { AreRoots grid.now roots.old.items }
    requires back { ComesBack grid.now roots.old.items root }
    requires none { waiting.old ≡ [] }
    ensures roots { OnOk result (AreRoots grid.now roots.new.items) }
    ensures known { OnOk result (slice_index roots.new.items root < length grid.now) }
    ensures kept { OnOk result ((node : ℕ) → node < length grid.now → slice_index roots.old.items node < length grid.now → slice_index roots.new.items node < length grid.now) }
    ensures none { OnOk result (waiting.new ≡ []) }
{
    let nodes = grid.nodes();
    if roots[root as usize] < nodes {
        return Ok(());
    }
    roots[root as usize] = root;
    waiting.push(root)?;
    while let Some(node) = waiting.pop() {
        take_in(grid, turned, node, root, roots, waiting)?;
    }
    Ok(())
}

/// Gives the nodes from which edges lead to a node its root, unless they have one, and lets them wait for the same.
fn take_in(
    grid: &Grid,
    turned: &Grid,
    node: u32,
    root: u32,
    roots: &mut Vec<u32>,
    waiting: &mut Stack,
) -> Result<(), OutOfMemory>
    requires turned { IsTurned grid.now turned.now }
    requires node { node < length grid.now }
    requires root { root < length grid.now }
    requires each { length roots.old.items ≡ length grid.now }
    ensures gathered { OnOk result ((first : List ℕ) → IsGathering grid.now first roots.old.items root (node ∷ waiting.old) (length grid.now) 0
        → IsGathering grid.now first roots.new.items root waiting.new (length grid.now) 0) }
    ensures each { OnOk result (length roots.new.items ≡ length grid.now) }
    ensures less { OnOk result (roots_left (length grid.now) roots.new.items waiting.new ≤ roots_left (length grid.now) roots.old.items waiting.old) }
{
    let nodes = grid.nodes();
    let mut from = 0;
    while let Some(other) = turned.next(node, from) {
        if roots[other as usize] >= nodes {
            roots[other as usize] = root;
            waiting.push(other)?;
        }
        from = other + 1;
    }
    Ok(())
}
