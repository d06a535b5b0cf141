// A relation that grows along edges.
ghost use Rattle.std.specs.Prelude.{◌≡◌, ◌<◌, ℕ, List, [], false, length, replicate, slice_index_or, IfOk, IfSome, OnOk};
ghost use Rattle.cb_points_to.specs.Says.{MustHave, MustLink, lets};
ghost use Rattle.cb_points_to.specs.Webs.{Adds, Followed, FollowedAll, Follows, IsWeb, Linking};

use crate::constraints::Constraints;
use crate::lists::Lists;
use crate::member::{Edge, Member};
use crate::pts::Pts;
use cb_plain::OutOfMemory;
use std::alloc::Global;

/// Which sites each node has by now, along which edges they go, and which of them are still to be looked at.
#[derive(Drop)]
pub(crate) struct Web {
    pub rows: Pts,
    pub edges: Lists<Edge>,
    pub waiting: Vec<Member>,
}

impl Web {
    /// So many nodes and sites, of which no node has any, without edges. `OutOfMemory` where memory was not to be had.
    pub fn make(alloc: Global, nodes: u32, sites: u32) -> Result<Web, OutOfMemory>
        ensures rows { IfOk result (λ web. web.rows ≡ replicate nodes (replicate sites false)) }
        ensures edges { IfOk result (λ web. web.edges ≡ replicate nodes []) }
        ensures waiting { IfOk result (λ web. web.waiting.items ≡ []) }
    {
        Ok(Web {
            rows: Pts::make(alloc, nodes, sites)?,
            edges: Lists::make(alloc, nodes)?,
            waiting: Vec::new(alloc),
        })
    }

    /// Lets a node have a site, which waits if it is new.
    pub fn add(&mut self, member: Member) -> Result<(), OutOfMemory>
        requires node { member.node < length self.old.rows }
        requires site { member.site < length (slice_index_or self.old.rows member.node []) }
        ensures { OnOk result (Adds self.old member.node member.site self.new) }
    {
        if self.rows.has(member.node, member.site) {
            return Ok(());
        }
        self.waiting.push(member)?;
        self.rows.put(member.node, member.site);
        Ok(())
    }

    /// Lets a site go along an edge, if it passes.
    pub fn follow(
        &mut self,
        constraints: &Constraints,
        edge: Edge,
        site: u32,
    ) -> Result<(), OutOfMemory>
        requires { (looked : List (List ℕ)) × (from : ℕ) × Follows constraints.now looked self.old from edge.to edge.filter site }
        ensures { (looked : List (List ℕ)) → (from : ℕ) → Follows constraints.now looked self.old from edge.to edge.filter site
            → OnOk result (Followed constraints.now looked self.old self.new edge.to edge.filter site) }
    {
        if !passes(constraints, edge.filter, site) {
            return Ok(());
        }
        self.add(Member {
            node: edge.to,
            site,
        })
    }

    /// Lets sites of a node that were looked at, and those that will be, go along an edge.
    pub fn add_edge(
        &mut self,
        constraints: &Constraints,
        looked: &Lists<u32>,
        from: u32,
        edge: Edge,
    ) -> Result<(), OutOfMemory>
        requires web { IsWeb constraints.now looked.now self.old }
        requires link { MustLink constraints.now from edge.to edge.filter }
        ensures { OnOk result (Linking constraints.now looked.now self.old self.new from edge.to edge.filter) }
    {
        for site in looked.row(from).as_slice() {
            self.follow(constraints, edge, *site)?;
        }
        self.edges.push_at(from, edge)
    }

    /// Lets a site of a node go along all edges from there.
    pub fn follow_all(
        &mut self,
        constraints: &Constraints,
        member: Member,
    ) -> Result<(), OutOfMemory>
        requires { (looked : List (List ℕ)) × IsWeb constraints.now looked self.old × MustHave constraints.now member.node member.site }
        ensures { (looked : List (List ℕ)) → IsWeb constraints.now looked self.old → MustHave constraints.now member.node member.site
            → OnOk result (FollowedAll constraints.now looked self.old self.new member.node member.site) }
    {
        for at in 0..self.edges.row(member.node).len() {
            let edge = *self.edges.row(member.node).get(at);
            self.follow(constraints, edge, member.site)?;
        }
        Ok(())
    }
}

/// Whether a filter, or none, lets a site pass.
fn passes(constraints: &Constraints, filter: Option<u32>, site: u32) -> bool
    requires filter { IfSome filter (λ place. place < length constraints.now.filters) }
    requires site { site < constraints.now.sites }
    ensures { result ≡ lets constraints.now filter site }
{
    match filter {
        None => true,
        Some(place) => constraints.passes(place, site),
    }
}
