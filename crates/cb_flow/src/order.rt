// The order in which parts are looked at.
ghost use Rattle.std.specs.Prelude.{◌<◌};

use crate::graph::Graph;
use cb_plain::OutOfMemory;
use std::alloc::Global;

/// The parts of a graph, each behind those from which edges lead to it, without those that are on a cycle or behind one (Kahn 1962). So what flows from a
/// part goes to parts that were looked at before. Takes time and memory in the parts and edges. `OutOfMemory` where memory was not to be had.
pub(crate) fn downwards(alloc: Global, graph: &Graph) -> Result<Vec<u32>, OutOfMemory> {
    let parts = graph.parts();
    let mut before = edges_into(alloc, graph)?;
    let mut order = first_parts(alloc, graph)?;
    for at in 0..parts as usize {
        match order.get(at).copied() {
            Some(part) if part < parts => pass(graph, part, &mut before, &mut order)?,
            _ => break,
        }
    }
    Ok(order)
}

/// How many edges lead to each part.
fn edges_into(alloc: Global, graph: &Graph) -> Result<Vec<usize>, OutOfMemory> {
    let mut before = Vec::new(alloc);
    for part in 0..graph.parts() {
        before.push(graph.into(part).len())?;
    }
    Ok(before)
}

/// The parts to which no edges lead.
fn first_parts(alloc: Global, graph: &Graph) -> Result<Vec<u32>, OutOfMemory> {
    let mut order = Vec::new(alloc);
    for part in 0..graph.parts() {
        if graph.into(part).is_empty() {
            order.push(part)?;
        }
    }
    Ok(order)
}

/// Passes a part: of the parts to which edges lead from it, those come next to which none leads from a part that wasn't passed.
fn pass(
    graph: &Graph,
    part: u32,
    before: &mut Vec<usize>,
    order: &mut Vec<u32>,
) -> Result<(), OutOfMemory>
    requires { part < graph.now.parts }
{
    let edges = graph.out_of(part);
    for edge in edges {
        let next = graph.edge(*edge).1;
        if let Some(left) = before.get_mut(next as usize) {
            *left = left.saturating_sub(1);
            if *left == 0 {
                order.push(next)?;
            }
        }
    }
    Ok(())
}
