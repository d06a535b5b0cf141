// Graphs of one part.
ghost use Rattle.std.specs.Prelude.{◌≡◌, ℕ, ◌<◌, [], length, replicate, IfOk};
ghost use Rattle.cb_dag.specs.Graphs.{HasEdge};

use cb_dag::{Dag, DagFault, Grid, condense};
use cb_plain::{Numbers, OutOfMemory};
use std::alloc::{AllocError, Global};

/// The graph of so many sites that all lie in one part, until an analysis tells more. Takes time and memory in the square of their number.
/// `OutOfMemory` where memory was not to be had.
pub(crate) fn one_part(alloc: Global, sites: u32) -> Result<Dag, OutOfMemory>
    requires { 0 < sites }
    ensures { IfOk result (λ graph. graph ≡ record { parts = 1; part_of = replicate sites 0; edges = [] }) }
{
    let grid = joined(alloc, sites)?;
    match condense(alloc, &grid) {
        Ok(graph) => Ok(graph),
        Err(DagFault::OutOfMemory) => Err(AllocError),
        Err(DagFault::TooManyParts) => unreachable!(),
        Err(DagFault::TooManyEdges) => unreachable!(),
    }
}

/// So many nodes of which each leads to the first one, and that one to each. `OutOfMemory` where memory was not to be had.
fn joined(alloc: Global, nodes: u32) -> Result<Grid, OutOfMemory>
    ensures nodes { IfOk result (λ grid. length grid ≡ nodes) }
    ensures there { IfOk result (λ grid. (node : ℕ) → node < nodes → HasEdge grid node 0) }
    ensures back { IfOk result (λ grid. (node : ℕ) → node < nodes → HasEdge grid 0 node) }
{
    let mut grid = Grid::make(alloc, nodes)?;
    for node in 0..nodes {
        grid.put(node, 0);
        grid.put(0, node);
    }
    Ok(grid)
}

/// The part of each of so many sites. `OutOfMemory` where memory was not to be had.
pub(crate) fn site_parts(alloc: Global, graph: &Dag, sites: u32) -> Result<Numbers, OutOfMemory>
    requires { length graph.now.part_of ≡ sites }
    ensures { IfOk result (λ parts. parts ≡ graph.now.part_of) }
{
    let mut parts = Numbers::with_capacity(alloc, sites as usize)?;
    for site in 0..sites {
        parts.push(graph.part_of(site))?;
    }
    Ok(parts)
}
