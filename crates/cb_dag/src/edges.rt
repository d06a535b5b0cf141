// The edges between the parts of a graph.
ghost use Rattle.std.specs.Prelude.{◌≡◌, ◌≢◌, ◌+◌, ◌<◌, [], length, IfErr, IfOk, OnOk, Some};
ghost use Rattle.std.specs.List.{All};
ghost use Rattle.cb_dag.specs.Marks.{IsNextEdge};
ghost use Rattle.cb_dag.specs.Search.{IsCopy, part_place};
ghost use Rattle.cb_dag.specs.Listing.{IsListing, IsRowFault};

use crate::{DagFault, Grid, MOST_EDGES};
use cb_plain::OutOfMemory;
use std::alloc::Global;

/// The graph of the parts of a graph, with edges from parts to themselves. Takes time in the edges and in the squares of the nodes and the parts
/// over 64. `OutOfMemory` where memory was not to be had.
pub(crate) fn between_parts(
    alloc: Global,
    grid: &Grid,
    parts: u32,
    part_of: &[u32],
) -> Result<Grid, OutOfMemory>
    requires each { length part_of.now ≡ length grid.now }
    requires below { All (λ part. part < parts) part_of.now }
    ensures { IfOk result (λ joined. IsCopy grid.now joined parts (part_place part_of.now) (length grid.now) 0) }
{
    let mut joined = Grid::make(alloc, parts)?;
    for node in 0..grid.nodes() {
        join_row(grid, node, part_of, &mut joined);
    }
    Ok(joined)
}

/// Puts the edges from a node, between the parts of their nodes, into a graph.
fn join_row(grid: &Grid, node: u32, part_of: &[u32], joined: &mut Grid)
    requires within { node < length grid.now }
    requires each { length part_of.now ≡ length grid.now }
    requires below { All (λ part. part < length joined.old) part_of.now }
    requires before { IsCopy grid.now joined.old (length joined.old) (part_place part_of.now) node 0 }
    ensures len { length joined.new ≡ length joined.old }
    ensures joined { IsCopy grid.now joined.new (length joined.old) (part_place part_of.now) (node + 1) 0 }
{
    let _nodes = grid.nodes();
    let part = part_of[node as usize];
    let mut from = 0;
    while let Some(other) = grid.next(node, from) {
        joined.put(part, part_of[other as usize]);
        from = other + 1;
    }
}

/// The edges of a graph between different nodes, in ascending order. `TooManyEdges` where there are more than `MOST_EDGES`, and `OutOfMemory` where
/// memory was not to be had.
pub(crate) fn list_edges(alloc: Global, joined: &Grid) -> Result<Vec<(u32, u32)>, DagFault>
    ensures edges { IfOk result (λ edges. IsListing joined.now edges.items (length joined.now) 0) }
    ensures fault { IfErr result (IsRowFault joined.now) }
{
    let mut edges = Vec::new(alloc);
    for node in 0..joined.nodes() {
        list_row(joined, node, &mut edges)?;
    }
    Ok(edges)
}

/// Lists the edges from a node to others behind those from nodes before it.
fn list_row(joined: &Grid, node: u32, edges: &mut Vec<(u32, u32)>) -> Result<(), DagFault>
    requires within { node < length joined.now }
    requires before { IsListing joined.now edges.old.items node 0 }
    ensures edges { OnOk result (IsListing joined.now edges.new.items (node + 1) 0) }
    ensures fault { IfErr result (IsRowFault joined.now) }
{
    let _nodes = joined.nodes();
    let mut from = 0;
    while let Some(other) = joined.next(node, from) {
        if other != node {
            list_edge(joined, node, other, from, edges)?;
        }
        from = other + 1;
    }
    Ok(())
}

/// Lists one edge more.
fn list_edge(
    joined: &Grid,
    node: u32,
    other: u32,
    from: u32,
    edges: &mut Vec<(u32, u32)>,
) -> Result<(), DagFault>
    requires before { IsListing joined.now edges.old.items node from }
    requires next { IsNextEdge joined.now node from (Some other) }
    requires differ { other ≢ node }
    ensures edges { OnOk result (IsListing joined.now edges.new.items node (other + 1)) }
    ensures fault { IfErr result (IsRowFault joined.now) }
{
    if edges.len() >= MOST_EDGES {
        return Err(DagFault::TooManyEdges);
    }
    edges.push((node, other))?;
    Ok(())
}
