// Relations between nodes and sites.
ghost use Rattle.std.specs.Prelude.{◌≡◌, ◌<◌, [], false, length, replicate, slice_index_or, IfOk};
ghost use Rattle.cb_points_to.specs.Closed.{has};
ghost use Rattle.cb_points_to.specs.Rows.{with_site};

use crate::bits::Bits;
use cb_plain::OutOfMemory;
use std::alloc::Global;
use std::marker::Model;

/// Which sites each node may hold. Contracts see it as a row of marks for each node, one mark a site. It takes a bit for each node and site.
#[derive(Debug, Drop)]
pub struct Pts {
    rows: Vec<Bits>,
}

impl Model for Pts {
    ghost use Rattle.std.specs.Prelude.{Bool, List};

    ghost Value = { List (List Bool) };

    ghost view = { λ pts. pts.rows.items };
}

impl Pts {
    /// No node holds a site. `OutOfMemory` where memory was not to be had.
    pub(crate) fn make(alloc: Global, nodes: u32, sites: u32) -> Result<Self, OutOfMemory>
        ensures { IfOk result (λ pts. pts ≡ replicate nodes (replicate sites false)) }
    {
        let mut rows = Vec::new(alloc);
        for _node in 0..nodes {
            rows.push(Bits::make(alloc, sites)?)?;
        }
        Ok(Pts { rows })
    }

    /// Whether a node may hold a site.
    pub fn has(&self, node: u32, site: u32) -> bool
        requires node { node < length self.now }
        requires site { site < length (slice_index_or self.now node []) }
        ensures { result ≡ has self.now node site }
    {
        self.rows[node as usize].has(site)
    }

    /// Lets a node hold a site.
    pub(crate) fn put(&mut self, node: u32, site: u32)
        requires node { node < length self.old }
        requires site { site < length (slice_index_or self.old node []) }
        ensures { self.new ≡ with_site self.old node site }
    {
        self.rows[node as usize].put(site);
    }
}
