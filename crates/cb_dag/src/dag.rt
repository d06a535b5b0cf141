// Graphs of parts.
ghost use Rattle.std.specs.Prelude.{◌≡◌, ◌<◌, ◌≤◌, length, slice_get, IfErr, IfOk, Some};
ghost use Rattle.std.specs.List.{All};
ghost use Rattle.cb_dag.specs.Parts.{AreWithin, most_edges, most_parts};
ghost use Rattle.cb_dag.specs.Places.{edges_at};
ghost use Rattle.cb_dag.specs.declared.ends.End.TheVariants.{Finish, Start};

use crate::{End, edges_by_end};
use cb_plain::{Numbers, OutOfMemory};
use std::alloc::Global;
use std::marker::Model;

/// The parts of a graph, numbered from 0, and the edges between them. Contracts see it as the record of their number, of the part of each node, and
/// of the edges.
#[derive(Drop)]
pub struct Dag {
    parts: u32,
    part_of: Vec<u32>,
    edges: Vec<(u32, u32)>,
    out_of: Vec<Numbers>,
    into: Vec<Numbers>,
}

impl Model for Dag {
    ghost use Rattle.cb_dag.specs.Parts.{Condensed};
    ghost use Rattle.cb_dag.specs.Stored.{IsStored};

    ghost Value = { Condensed };

    ghost view = { λ dag. record { parts = dag.parts; part_of = dag.part_of.items; edges = dag.edges.items } };

    ghost invariant = { λ dag. IsStored dag.parts dag.part_of.items dag.edges.items dag.out_of.items dag.into.items };
}

impl Dag {
    ghost use Rattle.cb_dag.specs.Stored.{IsGraph};

    /// The graph with these parts and edges.
    pub(crate) fn of(
        alloc: Global,
        parts: u32,
        part_of: Vec<u32>,
        edges: Vec<(u32, u32)>,
    ) -> Result<Dag, OutOfMemory>
        requires few_parts { parts ≤ most_parts }
        requires few_edges { length edges.items ≤ most_edges }
        requires below { All (λ part. part < parts) part_of.items }
        requires within { AreWithin parts edges.items }
        ensures { IfOk result (λ dag. dag ≡ record { parts = parts; part_of = part_of.items; edges = edges.items }) }
    {
        let out_of = edges_by_end(alloc, parts, edges.as_slice(), End::Start)?;
        let into = edges_by_end(alloc, parts, edges.as_slice(), End::Finish)?;
        Ok(Dag {
            parts,
            part_of,
            edges,
            out_of,
            into,
        })
    }

    /// How many parts there are: at most `MOST_PARTS`.
    pub fn parts(&self) -> u32
        ensures parts { result ≡ self.now.parts }
        ensures graph { IsGraph self.now }
    {
        self.parts
    }

    /// The part of a node.
    pub fn part_of(&self, node: u32) -> u32
        requires { node < length self.now.part_of }
        ensures { slice_get self.now.part_of node ≡ Some result }
    {
        self.part_of[node as usize]
    }

    /// How many edges there are between parts: at most `MOST_EDGES`.
    pub fn edge_count(&self) -> u32
        ensures { result ≡ length self.now.edges }
    {
        self.edges.len() as u32
    }

    /// An edge by its number: the part from which it leads and the one to which it leads. They are numbered in ascending order.
    pub fn edge(&self, i: u32) -> (u32, u32)
        requires { i < length self.now.edges }
        ensures { slice_get self.now.edges i ≡ Some result }
    {
        self.edges[i as usize]
    }

    /// All edges, in order.
    pub fn edges(&self) -> &[(u32, u32)]
        ensures edges { result.now ≡ self.now.edges }
        ensures graph { IsGraph self.now }
    {
        let _ = &self.parts;
        self.edges.as_slice()
    }

    /// The numbers of the edges that lead from a part, in ascending order.
    pub fn out_of(&self, part: u32) -> &[u32]
        requires { part < self.now.parts }
        ensures { result.now ≡ edges_at Start part self.now.edges }
    {
        self.out_of[part as usize].as_slice()
    }

    /// The numbers of the edges that lead to a part, in ascending order.
    pub fn into(&self, part: u32) -> &[u32]
        requires { part < self.now.parts }
        ensures { result.now ≡ edges_at Finish part self.now.edges }
    {
        self.into[part as usize].as_slice()
    }
}
