// The edges of a network.
ghost use Rattle.std.specs.Prelude.{◌≡◌, ◌≤◌, ◌<◌, length, slice_get, IfOk, Some};
ghost use Rattle.cb_dag.specs.Parts.{AreWithin, most_edges, most_parts};
ghost use Rattle.cb_dag.specs.Places.{edges_at};
ghost use Rattle.cb_dag.specs.declared.ends.End.TheVariants.{Finish, Start};

use cb_dag::{End, edges_by_end};
use cb_plain::{Numbers, OutOfMemory};
use std::alloc::Global;
use std::marker::Model;

/// Edges between parts, with those at each part. Contracts see it as the number of the parts and the edges.
#[derive(Drop)]
pub(crate) struct Graph {
    parts: u32,
    edges: Vec<(u32, u32)>,
    out_of: Vec<Numbers>,
    into: Vec<Numbers>,
}

impl Model for Graph {
    ghost use Rattle.cb_flow.specs.Networks.{Linked};
    ghost use Rattle.cb_flow.specs.Linkeds.{IsKept};

    ghost Value = { Linked };

    ghost view = { λ graph. record { parts = graph.parts; edges = graph.edges.items } };

    ghost invariant = { λ graph. IsKept graph.parts graph.edges.items graph.out_of.items graph.into.items };
}

impl Graph {
    /// The graph with these edges. Takes time and memory in the parts and edges. `OutOfMemory` where memory was not to be had.
    pub fn make(alloc: Global, parts: u32, edges: &[(u32, u32)]) -> Result<Graph, OutOfMemory>
        requires few_parts { parts ≤ most_parts }
        requires few_edges { length edges.now ≤ most_edges }
        requires within { AreWithin parts edges.now }
        ensures { IfOk result (λ graph. graph ≡ record { parts = parts; edges = edges.now }) }
    {
        let out_of = edges_by_end(alloc, parts, edges, End::Start)?;
        let into = edges_by_end(alloc, parts, edges, End::Finish)?;
        let edges = Vec::from_slice(alloc, edges)?;
        Ok(Graph {
            parts,
            edges,
            out_of,
            into,
        })
    }

    /// How many parts there are.
    pub fn parts(&self) -> u32
        ensures parts { result ≡ self.now.parts }
        ensures few_parts { self.now.parts ≤ most_parts }
        ensures few_edges { length self.now.edges ≤ most_edges }
        ensures within { AreWithin self.now.parts self.now.edges }
    {
        self.parts
    }

    /// How many edges there are.
    pub fn edge_count(&self) -> u32
        ensures { result ≡ length self.now.edges }
    {
        self.edges.len() as u32
    }

    /// An edge by its number.
    pub fn edge(&self, i: u32) -> (u32, u32)
        requires { i < length self.now.edges }
        ensures { slice_get self.now.edges i ≡ Some result }
    {
        self.edges[i as usize]
    }

    /// The numbers of the edges that lead from a part.
    pub fn out_of(&self, part: u32) -> &[u32]
        requires { part < self.now.parts }
        ensures { result.now ≡ edges_at Start part self.now.edges }
    {
        self.out_of[part as usize].as_slice()
    }

    /// The numbers of the edges that lead to a part.
    pub fn into(&self, part: u32) -> &[u32]
        requires { part < self.now.parts }
        ensures { result.now ≡ edges_at Finish part self.now.edges }
    {
        self.into[part as usize].as_slice()
    }
}
