// Graphs as grids of marks.
ghost use Rattle.std.specs.Prelude.{◌≡◌, ◌+◌, ◌<◌, ◌^◌, false, length, replicate, IfOk};
ghost use Rattle.cb_dag.specs.Graphs.{IsSquare, has_edge, with_edge};
ghost use Rattle.cb_dag.specs.Marks.{IsNextEdge};
ghost use Rattle.cb_dag.specs.Search.{IsCopy, IsTurned, turned_place};

use crate::bits::Bits;
use cb_plain::OutOfMemory;
use std::alloc::Global;
use std::marker::Model;

/// A graph: which edges lead between nodes that are numbered from 0. Contracts see it as the rows of its marks, by the node from which an edge
/// leads and the one to which it leads. It takes a bit for each two nodes.
#[derive(Drop)]
pub struct Grid {
    rows: Vec<Bits>,
    nodes: u32,
}

impl Model for Grid {
    ghost use Rattle.std.specs.Prelude.{◌≡◌, length, Bool, List};
    ghost use Rattle.cb_dag.specs.Graphs.{IsSquare};

    ghost Value = { List (List Bool) };

    ghost view = { λ grid. grid.rows.items };

    ghost invariant = { λ grid. (length grid.rows.items ≡ grid.nodes) × IsSquare grid.rows.items };
}

impl Grid {
    /// The graph of so many nodes without edges. Takes time and memory in the square of their number. `OutOfMemory` where memory was not to be
    /// had.
    pub fn make(alloc: Global, nodes: u32) -> Result<Grid, OutOfMemory>
        ensures { IfOk result (λ grid. grid ≡ replicate nodes (replicate nodes false)) }
    {
        let mut rows = Vec::new(alloc);
        for _node in 0..nodes {
            rows.push(Bits::make(alloc, nodes)?)?;
        }
        Ok(Grid { rows, nodes })
    }

    /// How many nodes there are.
    pub fn nodes(&self) -> u32
        ensures nodes { result ≡ length self.now }
        ensures square { IsSquare self.now }
    {
        let _ = &self.rows;
        self.nodes
    }

    /// Lets an edge lead from one node to another, or to itself.
    pub fn put(&mut self, a: u32, b: u32)
        requires a { a < length self.old }
        requires b { b < length self.old }
        ensures { self.new ≡ with_edge self.old a b }
    {
        self.rows[a as usize].put(b);
    }

    /// Whether an edge leads from one node to another.
    pub fn has(&self, a: u32, b: u32) -> bool
        requires a { a < length self.now }
        requires b { b < length self.now }
        ensures { result ≡ has_edge self.now a b }
    {
        self.rows[a as usize].has(b)
    }

    /// The first node from one on to which an edge leads from a node, if there is any. Looks at 64 nodes at a time.
    pub(crate) fn next(&self, a: u32, from: u32) -> Option<u32>
        requires { a < length self.now }
        ensures { IsNextEdge self.now a from result }
    {
        self.rows[a as usize].next(from)
    }

    /// The graph with each edge turned. Takes time in its edges, and in its marks over 64. `OutOfMemory` where memory was not to be had.
    pub(crate) fn turned(&self, alloc: Global) -> Result<Grid, OutOfMemory>
        ensures { IfOk result (IsTurned self.now) }
    {
        let nodes = self.nodes();
        let mut turned = Grid::make(alloc, nodes)?;
        for node in 0..nodes {
            self.turn_row(node, &mut turned);
        }
        Ok(turned)
    }

    /// Puts the edges from a node into a graph, each turned.
    fn turn_row(&self, node: u32, turned: &mut Grid)
        requires within { node < length self.now }
        requires before { IsCopy self.now turned.old (length self.now) turned_place node 0 }
        ensures { IsCopy self.now turned.new (length self.now) turned_place (node + 1) 0 }
    {
        let _nodes = self.nodes();
        let mut from = 0;
        while let Some(other) = self.next(node, from) {
            turned.put(other, node);
            from = other + 1;
        }
    }
}
