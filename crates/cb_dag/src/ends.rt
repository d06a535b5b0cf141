// The edges of a graph by the parts where they begin or end.
ghost use Rattle.std.specs.Prelude.{◌≡◌, ◌<◌, ◌^◌, length, IfOk};
ghost use Rattle.cb_dag.specs.Parts.{AreWithin};
ghost use Rattle.cb_dag.specs.Places.{AreEdgesAt, end_of};

use cb_plain::{Numbers, OutOfMemory};
use std::alloc::Global;

/// An end of an edge.
#[derive(Clone, Copy, Debug, PartialEq, Eq)]
pub enum End {
    /// The part from which the edge leads.
    Start,
    /// The part to which it leads.
    Finish,
}

impl End {
    /// This end of an edge.
    pub fn of(self, edge: (u32, u32)) -> u32
        ensures { result ≡ end_of self edge }
    {
        match self {
            End::Start => edge.0,
            End::Finish => edge.1,
        }
    }
}

/// For each part the indices of the edges that have it as this end, in ascending order. Takes time and memory in the parts and edges. `OutOfMemory`
/// where memory was not to be had.
pub fn edges_by_end(
    alloc: Global,
    parts: u32,
    edges: &[(u32, u32)],
    end: End,
) -> Result<Vec<Numbers>, OutOfMemory>
    requires within { AreWithin parts edges.now }
    requires few { length edges.now < 2 ^ 32 }
    ensures { IfOk result (λ lists. AreEdgesAt end parts edges.now lists.items) }
{
    let mut lists = Vec::new(alloc);
    for _part in 0..parts {
        lists.push(Numbers::new(alloc))?;
    }
    for (index, edge) in edges.iter().enumerate() {
        let part = end.of(*edge) as usize;
        lists[part].push(index as u32)?;
    }
    Ok(lists)
}
