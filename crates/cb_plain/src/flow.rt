// Flows along the edges of a graph of parts.
ghost use Rattle.std.specs.Prelude.{◌≡◌, ◌<◌, length, replicate, slice_get, slice_set, IfOk, Some};
ghost use Rattle.cb_plain.specs.Flows.{no_flow, with_arc, with_sink, with_source};

use crate::OutOfMemory;
use std::alloc::Global;
use std::marker::Model;

/// A flow from a source to a sink through the parts of a graph: an amount for the arc from the source to each part, one for the arc from each
/// part to the sink, and one for each edge.
#[derive(Debug, Drop)]
pub struct Flow {
    sources: Vec<u64>,
    sinks: Vec<u64>,
    arcs: Vec<u64>,
}

impl Model for Flow {
    ghost use Rattle.std.specs.Prelude.{◌≡◌, length};
    ghost use Rattle.cb_plain.specs.Amounts.{Amounts};

    ghost Value = { Amounts };

    ghost view = { λ flow. record { sources = flow.sources.items; sinks = flow.sinks.items; arcs = flow.arcs.items } };
}

impl Flow {
    /// The flow of nothing through so many parts and along so many edges. `OutOfMemory` where memory was not to be had.
    pub fn make(alloc: Global, parts: u32, arcs: u32) -> Result<Flow, OutOfMemory>
        ensures { IfOk result (λ flow. flow ≡ no_flow parts arcs) }
    {
        let sources = vec![in alloc; 0_u64; parts as usize]?;
        let sinks = vec![in alloc; 0_u64; parts as usize]?;
        let arcs = vec![in alloc; 0_u64; arcs as usize]?;
        Ok(Flow {
            sources,
            sinks,
            arcs,
        })
    }

    /// What flows from the source to a part.
    pub fn source(&self, part: u32) -> u64
        requires { part < length self.now.sources }
        ensures { slice_get self.now.sources part ≡ Some result }
    {
        self.sources[part as usize]
    }

    /// Lets another amount flow from the source to a part.
    pub fn set_source(&mut self, part: u32, amount: u64)
        requires { part < length self.old.sources }
        ensures { self.new ≡ with_source self.old part amount }
    {
        self.sources[part as usize] = amount;
    }

    /// What flows from a part to the sink.
    pub fn sink(&self, part: u32) -> u64
        requires { part < length self.now.sinks }
        ensures { slice_get self.now.sinks part ≡ Some result }
    {
        self.sinks[part as usize]
    }

    /// Lets another amount flow from a part to the sink.
    pub fn set_sink(&mut self, part: u32, amount: u64)
        requires { part < length self.old.sinks }
        ensures { self.new ≡ with_sink self.old part amount }
    {
        self.sinks[part as usize] = amount;
    }

    /// What flows along an edge.
    pub fn arc(&self, i: u32) -> u64
        requires { i < length self.now.arcs }
        ensures { slice_get self.now.arcs i ≡ Some result }
    {
        self.arcs[i as usize]
    }

    /// Lets another amount flow along an edge.
    pub fn set_arc(&mut self, i: u32, amount: u64)
        requires { i < length self.old.arcs }
        ensures { self.new ≡ with_arc self.old i amount }
    {
        self.arcs[i as usize] = amount;
    }
}
