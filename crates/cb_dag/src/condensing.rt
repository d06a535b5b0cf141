// Graphs condensed to their parts.
ghost use Rattle.std.specs.Prelude.{IfErr, IfOk};
ghost use Rattle.cb_dag.specs.Parts.{IsCondensed};
ghost use Rattle.cb_dag.specs.Faults.{IsFault};

use crate::edges::{between_parts, list_edges};
use crate::numbers::{Numbering, number_parts};
use crate::roots::roots;
use crate::search::nodes_left;
use crate::{Dag, DagFault, Grid, MOST_PARTS};
use std::alloc::Global;

/// The parts of a graph, which are its strongly connected components, and the edges between them, by two searches (Kosaraju; Sharir 1981). Two nodes are
/// in one part exactly where each leads to the other. Parts are numbered from 0 by their first nodes. Takes time in the nodes and the edges, and in
/// the marks of the grid over 64. `TooManyParts` where there are more than `MOST_PARTS` parts, `TooManyEdges` where there are not, and more than
/// `MOST_EDGES` edges between them, and `OutOfMemory` where memory was not to be had.
pub fn condense(alloc: Global, grid: &Grid) -> Result<Dag, DagFault>
    ensures dag { IfOk result (IsCondensed grid.now) }
    ensures fault { IfErr result (IsFault grid.now) }
{
    let _nodes = grid.nodes();
    let left = nodes_left(alloc, grid)?;
    let roots = roots(alloc, grid, left)?;
    let Numbering { parts, part_of } = number_parts(alloc, roots.as_slice())?;
    if parts > MOST_PARTS {
        return Err(DagFault::TooManyParts);
    }
    let joined = between_parts(alloc, grid, parts, part_of.as_slice())?;
    let _parts = joined.nodes();
    let edges = list_edges(alloc, &joined)?;
    Ok(Dag::of(alloc, parts, part_of, edges)?)
}
