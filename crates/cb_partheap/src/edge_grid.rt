// The edges between parts, as marks.
ghost use Rattle.std.specs.Prelude.{IfOk};
ghost use Rattle.cb_partheap.specs.Made.{IsGridOf};

use cb_dag::{Dag, Grid};
use cb_plain::OutOfMemory;
use std::alloc::Global;

/// The edges between the parts of a graph. Takes time in these and in the square of the parts, and a bit for each two of them. `OutOfMemory` where
/// that was not to be had.
pub(crate) fn edge_grid(alloc: Global, dag: &Dag) -> Result<Grid, OutOfMemory>
    ensures { IfOk result (λ grid. IsGridOf dag.now.parts dag.now.edges grid) }
{
    let mut grid = Grid::make(alloc, dag.parts())?;
    for edge in dag.edges() {
        let _nodes = grid.nodes();
        grid.put(edge.0, edge.1);
    }
    Ok(grid)
}
