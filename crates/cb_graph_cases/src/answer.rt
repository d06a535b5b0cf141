// What there is to say of a case.
ghost use Rattle.std.specs.Prelude.{IfOk};
ghost use Rattle.cb_dag.specs.Parts.{IsCondensed};

use crate::case::Case;
use crate::choice::tell_choice;
use crate::gains::gains_of;
use cb_dag::{Dag, DagFault, Grid, condense};
use std::alloc::{AllocError, Global};

/// The most edges that are told one by one.
const MOST_TOLD: u32 = 1000;

/// The parts of a case's graph, the edges between them, the best set, and what the checker says of its flow.
pub(crate) fn answer(alloc: Global, case: &Case) -> Result<String, AllocError> {
    let dag = match condense_again(alloc, &case.grid, case.times.condense) {
        Ok(dag) => dag,
        Err(fault) => return format!(in alloc; "{fault}"),
    };
    let mut told = String::new(alloc);
    tell_graph(&case.grid, &dag, &mut told)?;
    let gains = gains_of(alloc, dag.parts(), case.gains.as_slice())?;
    tell_choice(alloc, case, &dag, gains.as_slice(), &mut told)?;
    Ok(told)
}

/// Condenses a graph, so many times and once more.
fn condense_again(alloc: Global, grid: &Grid, times: u32) -> Result<Dag, DagFault>
    ensures { IfOk result (IsCondensed grid.now) }
{
    for _ in 0..times {
        let _again = condense(alloc, grid)?;
    }
    condense(alloc, grid)
}

/// Tells the part of each node, and the edges between parts, or how many there are.
fn tell_graph(grid: &Grid, dag: &Dag, told: &mut String) -> Result<(), AllocError>
    requires { IsCondensed grid.now dag.now }
{
    let nodes = grid.nodes();
    for node in 0..nodes {
        let part = dag.part_of(node);
        write!(told, "{part} ")?;
    }
    told.push_str("|")?;
    let edges = dag.edge_count();
    if edges > MOST_TOLD {
        return write!(told, " {edges} edges");
    }
    for edge in dag.edges() {
        let (from, to) = *edge;
        write!(told, " {from}>{to}")?;
    }
    Ok(())
}
