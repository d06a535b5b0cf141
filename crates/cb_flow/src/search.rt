// Searches for parts that more could flow to.
ghost use Rattle.std.specs.Prelude.{◌≡◌, ◌-◌, ◌<◌, ◌≤◌, ℕ, ℤ, List, Bool, true, false, length, slice_index, slice_index_or, count_by, ◌^◌, IfNone, IfOk, IfSome};
ghost use Rattle.std.specs.Bool.{OnFalse, OnTrue};
ghost use Rattle.std.specs.List.{All};
ghost use Rattle.cb_plain.specs.Amounts.{Amounts};
ghost use Rattle.cb_dag.specs.Flows.{IsCutOff, IsFlow, IsReachedSet, gain_at, negative, positive};
ghost use Rattle.cb_dag.specs.Marks.{marked};
ghost use Rattle.cb_flow.specs.Visits.{AreFull, AreVisited, Grows, IsExplored, IsOpenVisit, IsSearch, IsVisit, part_at, visit_at};

use crate::graph::Graph;
use crate::visit::{Visit, Way};
use cb_dag::{negative_part, positive_part};
use cb_plain::{Flow, OutOfMemory};
use std::alloc::Global;

/// A search from the source, part by part, those that are nearest first: the visits in their order, of which so many were made, and the parts that
/// were seen, by this search or by one before it, and aren't visited any more.
#[derive(Drop)]
pub(crate) struct Search {
    pub visits: Vec<Visit>,
    pub count: usize,
    pub seen: Vec<bool>,
}

impl Search {
    /// Visits a part, unless it was seen.
    pub fn reach(&mut self, visit: Visit)
        requires part { visit.part < length self.old.seen.items }
        requires each { length self.old.visits.items ≡ length self.old.seen.items }
        requires counted { self.old.count ≤ count_by (λ mark. mark) self.old.seen.items }
        ensures search { (gains : List ℤ) (edges : List (ℕ × ℕ)) (flow : Amounts) → IsSearch gains edges flow self.old.visits.items self.old.count self.old.seen.items
            → IsVisit gains edges flow self.old.visits.items self.old.count visit → IsSearch gains edges flow self.new.visits.items self.new.count self.new.seen.items }
        ensures grows { Grows self.old.visits.items self.old.count self.old.seen.items self.new.visits.items self.new.count self.new.seen.items }
        ensures reached { marked self.new.seen.items visit.part ≡ true }
    {
        if self.seen[visit.part as usize] {
            return;
        }
        self.visits[self.count] = visit;
        self.count += 1;
        self.seen[visit.part as usize] = true;
    }

    /// Visits the parts to which more could flow from one, whose visit is told.
    fn expand(&mut self, graph: &Graph, gains: &[i64], flow: &Flow, at: usize)
        requires before { IsSearch gains.now graph.now.edges flow.now self.old.visits.items self.old.count self.old.seen.items }
        requires each { length gains.now ≡ graph.now.parts }
        requires is_flow { IsFlow gains.now graph.now.edges flow.now }
        requires at { at < self.old.count }
        requires full { slice_index flow.now.sinks (part_at self.old.visits.items at) ≡ negative (gain_at gains.now (part_at self.old.visits.items at)) }
        ensures search { IsSearch gains.now graph.now.edges flow.now self.new.visits.items self.new.count self.new.seen.items }
        ensures grows { Grows self.old.visits.items self.old.count self.old.seen.items self.new.visits.items self.new.count self.new.seen.items }
        ensures explored { IsExplored gains.now graph.now.edges flow.now self.new.seen.items (part_at self.old.visits.items at) }
    {
        self.go_on(graph, gains, flow, at);
        self.give_back(graph, gains, flow, at);
    }

    /// Visits the parts from which edges lead to one.
    fn go_on(&mut self, graph: &Graph, gains: &[i64], flow: &Flow, at: usize)
        requires before { IsSearch gains.now graph.now.edges flow.now self.old.visits.items self.old.count self.old.seen.items }
        requires each { length gains.now ≡ graph.now.parts }
        requires at { at < self.old.count }
        ensures search { IsSearch gains.now graph.now.edges flow.now self.new.visits.items self.new.count self.new.seen.items }
        ensures grows { Grows self.old.visits.items self.old.count self.old.seen.items self.new.visits.items self.new.count self.new.seen.items }
        ensures onwards { (i : ℕ) → i < length graph.now.edges → (slice_index_or graph.now.edges i (0, 0)).1 ≡ part_at self.old.visits.items at
            → marked self.new.seen.items (slice_index_or graph.now.edges i (0, 0)).0 ≡ true }
    {
        let _parts = graph.parts();
        let _gains = gains.len();
        let Visit { part, room, .. } = self.visits[at];
        let edges = graph.into(part);
        for edge in edges {
            let edge = *edge;
            self.reach(Visit {
                part: graph.edge(edge).0,
                way: Way::Onwards,
                edge,
                parent: at as u32,
                room,
            });
        }
    }

    /// Visits the parts to which edges lead from one against which something flows.
    fn give_back(&mut self, graph: &Graph, gains: &[i64], flow: &Flow, at: usize)
        requires before { IsSearch gains.now graph.now.edges flow.now self.old.visits.items self.old.count self.old.seen.items }
        requires each { length gains.now ≡ graph.now.parts }
        requires arcs { length flow.now.arcs ≡ length graph.now.edges }
        requires at { at < self.old.count }
        ensures search { IsSearch gains.now graph.now.edges flow.now self.new.visits.items self.new.count self.new.seen.items }
        ensures grows { Grows self.old.visits.items self.old.count self.old.seen.items self.new.visits.items self.new.count self.new.seen.items }
        ensures given_back { (i : ℕ) → i < length graph.now.edges → (slice_index_or graph.now.edges i (0, 0)).0 ≡ part_at self.old.visits.items at → 0 < slice_index flow.now.arcs i
            → marked self.new.seen.items (slice_index_or graph.now.edges i (0, 0)).1 ≡ true }
    {
        let _parts = graph.parts();
        let _gains = gains.len();
        let Visit { part, room, .. } = self.visits[at];
        let edges = graph.out_of(part);
        for edge in edges {
            let edge = *edge;
            let back = flow.arc(edge);
            if back > 0 {
                self.reach(Visit {
                    part: graph.edge(edge).1,
                    way: Way::GivenBack,
                    edge,
                    parent: at as u32,
                    room: room.min(back),
                });
            }
        }
    }

    /// Visits a part, if more could flow to it straight from the source.
    fn enter(&mut self, gains: &[i64], flow: &Flow, part: u32)
        requires before { (edges : List (ℕ × ℕ)) → IsSearch gains.now edges flow.now self.old.visits.items self.old.count self.old.seen.items }
        requires part { part < length gains.now }
        requires source_each { length flow.now.sources ≡ length gains.now }
        ensures search { (edges : List (ℕ × ℕ)) → IsSearch gains.now edges flow.now self.new.visits.items self.new.count self.new.seen.items }
        ensures grows { Grows self.old.visits.items self.old.count self.old.seen.items self.new.visits.items self.new.count self.new.seen.items }
        ensures open { slice_index flow.now.sources part < positive (gain_at gains.now part) → marked self.new.seen.items part ≡ true }
    {
        let room = source_room(gains, flow, part);
        if room == 0 {
            return;
        }
        self.reach(Visit {
            part,
            way: Way::FromSource,
            edge: 0,
            parent: 0,
            room,
        });
    }

    /// Begins with all parts to which more could flow straight from the source.
    fn start(&mut self, gains: &[i64], flow: &Flow)
        requires visit_each { length self.old.visits.items ≡ length gains.now }
        requires seen_each { length self.old.seen.items ≡ length gains.now }
        requires source_each { length flow.now.sources ≡ length gains.now }
        requires few { length gains.now < 2 ^ 32 }
        ensures search { (edges : List (ℕ × ℕ)) → IsSearch gains.now edges flow.now self.new.visits.items self.new.count self.new.seen.items }
        ensures visited { AreVisited self.new.visits.items self.new.count self.new.seen.items }
        ensures open { (part : ℕ) → part < length gains.now → slice_index flow.now.sources part < positive (gain_at gains.now part) → marked self.new.seen.items part ≡ true }
    {
        unmark(&mut self.seen);
        self.count = 0;
        for part in 0..gains.len() {
            self.enter(gains, flow, part as u32);
        }
    }

    /// The first visit, from one on, from whose part more may flow to the sink, if there is any.
    fn first_open(&self, gains: &[i64], flow: &Flow, from: usize) -> Option<usize>
        requires count { self.now.count ≤ length self.now.visits.items }
        requires within { (x : ℕ) → x < self.now.count → part_at self.now.visits.items x < length gains.now }
        requires sink_each { length flow.now.sinks ≡ length gains.now }
        ensures low { IfSome result (λ at. at < self.now.count) }
        ensures open { IfSome result (λ at. slice_index flow.now.sinks (part_at self.now.visits.items at) < negative (gain_at gains.now (part_at self.now.visits.items at))) }
        ensures full { IfNone result (AreFull gains.now flow.now self.now.visits.items from self.now.count) }
    {
        for x in from..self.count {
            if is_open(gains, flow, self.visits[x].part) {
                return Some(x);
            }
        }
        None
    }

    /// Visits the parts to which more could flow from those that were visited, the earliest first, up to one from which more may flow to the sink: its
    /// visit, if there is any.
    fn advance(&mut self, graph: &Graph, gains: &[i64], flow: &Flow) -> Option<usize>
        requires before { IsSearch gains.now graph.now.edges flow.now self.old.visits.items self.old.count self.old.seen.items }
        requires each { length gains.now ≡ graph.now.parts }
        requires is_flow { IsFlow gains.now graph.now.edges flow.now }
        ensures found { IfSome result (IsOpenVisit gains.now graph.now.edges flow.now self.new.visits.items self.new.count self.new.seen.items) }
        ensures explored { IfNone result ((x : ℕ) → x < self.new.count → IsExplored gains.now graph.now.edges flow.now self.new.seen.items (part_at self.new.visits.items x)) }
        ensures search { IsSearch gains.now graph.now.edges flow.now self.new.visits.items self.new.count self.new.seen.items }
        ensures grows { Grows self.old.visits.items self.old.count self.old.seen.items self.new.visits.items self.new.count self.new.seen.items }
    {
        let mut head = 0;
        let mut looked = 0;
        while head < self.count {
            if let Some(at) = self.first_open(gains, flow, looked) {
                return Some(at);
            }
            looked = self.count;
            self.expand(graph, gains, flow, head);
            head += 1;
        }
        None
    }

    /// Visits the parts to which more could flow, those that are nearest to the source first, up to one from which more may flow to the sink: its
    /// visit, if there is any.
    pub fn run(&mut self, graph: &Graph, gains: &[i64], flow: &Flow) -> Option<usize>
        requires visit_each { length self.old.visits.items ≡ length gains.now }
        requires seen_each { length self.old.seen.items ≡ length gains.now }
        requires each { length gains.now ≡ graph.now.parts }
        requires is_flow { IsFlow gains.now graph.now.edges flow.now }
        ensures found { IfSome result (IsOpenVisit gains.now graph.now.edges flow.now self.new.visits.items self.new.count self.new.seen.items) }
        ensures reached { IfNone result (IsReachedSet gains.now graph.now.edges flow.now self.new.seen.items) }
        ensures cut_off { IfNone result (IsCutOff gains.now graph.now.edges flow.now) }
        ensures visit_each { length self.new.visits.items ≡ length gains.now }
        ensures seen_each { length self.new.seen.items ≡ length gains.now }
    {
        let _parts = graph.parts();
        self.start(gains, flow);
        self.advance(graph, gains, flow)
    }

    /// Visits the parts to which more could flow by way of one to which it flows straight from the source, but for those that are marked, up to one from
    /// which more may flow to the sink: its visit, if there is any.
    pub fn run_from(
        &mut self,
        graph: &Graph,
        gains: &[i64],
        flow: &Flow,
        part: u32,
    ) -> Option<usize>
        requires visit_each { length self.old.visits.items ≡ length gains.now }
        requires seen_each { length self.old.seen.items ≡ length gains.now }
        requires each { length gains.now ≡ graph.now.parts }
        requires part { part < length gains.now }
        requires is_flow { IsFlow gains.now graph.now.edges flow.now }
        ensures found { IfSome result (IsOpenVisit gains.now graph.now.edges flow.now self.new.visits.items self.new.count self.new.seen.items) }
        ensures visit_each { length self.new.visits.items ≡ length gains.now }
        ensures seen_each { length self.new.seen.items ≡ length gains.now }
    {
        self.count = 0;
        self.enter(gains, flow, part);
        self.advance(graph, gains, flow)
    }
}

/// How much more may flow from the source to a part.
fn source_room(gains: &[i64], flow: &Flow, part: u32) -> u64
    requires within { part < length gains.now }
    requires sources { length flow.now.sources ≡ length gains.now }
    ensures { result ≡ positive (gain_at gains.now part) - slice_index flow.now.sources part }
{
    positive_part(gains[part as usize]).saturating_sub(flow.source(part))
}

/// Whether more may flow from a part to the sink.
fn is_open(gains: &[i64], flow: &Flow, part: u32) -> bool
    requires within { part < length gains.now }
    requires sinks { length flow.now.sinks ≡ length gains.now }
    ensures open { OnTrue result (slice_index flow.now.sinks part < negative (gain_at gains.now part)) }
    ensures full { OnFalse result (negative (gain_at gains.now part) ≤ slice_index flow.now.sinks part) }
{
    flow.sink(part) < negative_part(gains[part as usize])
}

/// Takes all marks away.
pub(crate) fn unmark(seen: &mut Vec<bool>)
    ensures none { (part : ℕ) → marked seen.new.items part ≡ false }
    ensures len { length seen.new.items ≡ length seen.old.items }
{
    for part in 0..seen.len() {
        seen[part] = false;
    }
}

/// Takes the marks of the parts of so many visits away.
pub(crate) fn unmark_visited(seen: &mut Vec<bool>, visits: &Vec<Visit>, count: usize)
    requires few { count ≤ length visits.now.items }
    requires within { (x : ℕ) → x < count → part_at visits.now.items x < length seen.old.items }
    ensures { length seen.new.items ≡ length seen.old.items }
{
    for x in 0..count {
        let part = visits[x].part;
        seen[part as usize] = false;
    }
}

/// A search through so many parts, that has visited none. `OutOfMemory` where memory was not to be had.
pub(crate) fn make_search(alloc: Global, parts: u32) -> Result<Search, OutOfMemory>
    ensures visits { IfOk result (λ search. length search.visits.items ≡ parts) }
    ensures seen { IfOk result (λ search. length search.seen.items ≡ parts) }
{
    let visits = no_visits(alloc, parts)?;
    let seen = vec![in alloc; false; parts as usize]?;
    Ok(Search {
        visits,
        count: 0,
        seen,
    })
}

/// Room for so many visits. `OutOfMemory` where memory was not to be had.
fn no_visits(alloc: Global, parts: u32) -> Result<Vec<Visit>, OutOfMemory>
    ensures { IfOk result (λ visits. length visits.items ≡ parts) }
{
    let mut visits = Vec::with_capacity(alloc, parts as usize)?;
    for part in 0..parts {
        visits.push(Visit {
            part,
            way: Way::FromSource,
            edge: 0,
            parent: 0,
            room: 0,
        })?;
    }
    Ok(visits)
}
