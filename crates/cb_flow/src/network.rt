// Networks.
ghost use Rattle.std.specs.Prelude.{◌≡◌, ◌≤◌, ◌<◌, pos, length, replicate, slice_get, IfOk, Some};
ghost use Rattle.cb_plain.specs.Flows.{no_flow};
ghost use Rattle.cb_dag.specs.Flows.{IsCutOff, IsFlow, IsGreatest, IsReachedSet};
ghost use Rattle.cb_dag.specs.Parts.{AreWithin, most_edges, most_parts};
ghost use Rattle.cb_flow.specs.Networks.{AreGains, IsHeld};

use crate::graph::Graph;
use crate::moving::flow_most;
use crate::order::downwards;
use crate::search::{Search, make_search};
use cb_plain::{Flow, OutOfMemory, Steps};
use std::alloc::Global;
use std::marker::Model;
use std::sync::ledger::Ledger;

/// A network from a source to a sink through parts (Ford and Fulkerson 1956): from the source at most its positive gain flows to a part, from a part to
/// the sink at most what its gain is below 0, and along each edge, from the part to which it leads to the one from which it leads, any amount. Contracts
/// see it as the record of the edges, the gains, a flow, and the parts that were reached when it was last solved.
#[derive(Drop)]
pub struct Network {
    graph: Graph,
    order: Vec<u32>,
    gains: Vec<i64>,
    flow: Flow,
    search: Search,
}

impl Model for Network {
    ghost use Rattle.cb_flow.specs.Networks.{Network as Seen};
    ghost use Rattle.cb_flow.specs.Held.{IsNetwork};

    ghost Value = { Seen };

    ghost view = { λ network. record {
      parts = network.graph.parts;
      edges = network.graph.edges;
      gains = network.gains.items;
      flow = network.flow;
      reached = network.search.seen.items;
    } };

    ghost invariant = { λ network. IsNetwork network.graph.parts network.graph.edges network.gains.items network.flow network.search.visits.items network.search.seen.items };
}

impl Network {
    /// The network with these edges, whose ends are parts. No part gains anything yet. Takes time and memory in the parts and edges; no later call
    /// takes any. `OutOfMemory` where memory was not to be had.
    pub fn make(alloc: Global, parts: u32, edges: &[(u32, u32)]) -> Result<Network, OutOfMemory>
        requires few_parts { parts ≤ most_parts }
        requires few_edges { length edges.now ≤ most_edges }
        requires within { AreWithin parts edges.now }
        ensures parts { IfOk result (λ network. network.parts ≡ parts) }
        ensures edges { IfOk result (λ network. network.edges ≡ edges.now) }
    {
        let graph = Graph::make(alloc, parts, edges)?;
        let order = downwards(alloc, &graph)?;
        let gains = no_gains(alloc, parts)?;
        let flow = Flow::make(alloc, parts, edges.len() as u32)?;
        let search = make_search(alloc, parts)?;
        Ok(Network {
            graph,
            order,
            gains,
            flow,
            search,
        })
    }

    /// Gives each part a gain, and lets nothing flow. Takes time in the parts and edges.
    pub fn load(&mut self, gains: &[i64])
        requires { AreGains self.old.parts gains.now }
        ensures parts { self.new.parts ≡ self.old.parts }
        ensures edges { self.new.edges ≡ self.old.edges }
        ensures gains { self.new.gains ≡ gains.now }
    {
        let _parts = self.graph.parts();
        let edges = self.graph.edge_count();
        clear(&mut self.flow, gains.len() as u32, edges);
        copy_gains(&mut self.gains, gains);
    }

    /// Makes the flow the greatest, by a walk along which more could flow at a time: first by way of one part after the other, then from all at once. The
    /// counter counts nothing. Takes time in the parts and edges, and for each walk in the parts and edges that are nearer to where it begins than the
    /// part from which it leads to the sink: all of them at most.
    pub fn solve<L: Ledger>(&mut self, _steps: &mut Steps<L>)
        ensures parts { self.new.parts ≡ self.old.parts }
        ensures edges { self.new.edges ≡ self.old.edges }
        ensures gains { self.new.gains ≡ self.old.gains }
        ensures is_flow { IsFlow self.new.gains self.new.edges self.new.flow }
        ensures each { length self.new.reached ≡ length self.new.gains }
        ensures reached { IsReachedSet self.new.gains self.new.edges self.new.flow self.new.reached }
        ensures cut_off { IsCutOff self.new.gains self.new.edges self.new.flow }
        ensures greatest { IsGreatest self.new.gains self.new.edges self.new.flow }
        ensures within { AreWithin self.new.parts self.new.edges }
    {
        let _parts = self.graph.parts();
        flow_most(
            &self.graph,
            self.order.as_slice(),
            self.gains.as_slice(),
            &mut self.flow,
            &mut self.search,
        );
    }

    /// Whether a part was reached when the network was last solved: whether more could flow to it.
    pub fn reached(&self, part: u32) -> bool
        requires { part < self.now.parts }
        ensures { slice_get self.now.reached part ≡ Some result }
    {
        self.search.seen[part as usize]
    }

    /// What flows.
    pub fn flow(&self) -> &Flow
        ensures { result.now ≡ self.now.flow }
    {
        &self.flow
    }
}

/// Gains of 0. `OutOfMemory` where memory was not to be had.
fn no_gains(alloc: Global, parts: u32) -> Result<Vec<i64>, OutOfMemory>
    ensures { IfOk result (λ gains. gains.items ≡ replicate parts (pos 0)) }
{
    let gains = vec![in alloc; 0_i64; parts as usize]?;
    Ok(gains)
}

/// Lets nothing flow.
fn clear(flow: &mut Flow, parts: u32, edges: u32)
    requires sources { length flow.old.sources ≡ parts }
    requires sinks { length flow.old.sinks ≡ parts }
    requires arcs { length flow.old.arcs ≡ edges }
    ensures { flow.new ≡ no_flow parts edges }
{
    for part in 0..parts {
        flow.set_source(part, 0);
        flow.set_sink(part, 0);
    }
    for edge in 0..edges {
        flow.set_arc(edge, 0);
    }
}

/// Copies gains.
fn copy_gains(gains: &mut Vec<i64>, from: &[i64])
    requires { length gains.old.items ≡ length from.now }
    ensures { gains.new.items ≡ from.now }
{
    for (part, gain) in from.iter().enumerate() {
        gains[part] = *gain;
    }
}
