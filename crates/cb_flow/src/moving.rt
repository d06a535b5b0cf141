// Flows made greater.
ghost use Rattle.std.specs.Prelude.{◌≡◌, ◌<◌, ◌+◌, ◌^◌, length, sum, IfNone, IfSome};
ghost use Rattle.cb_dag.specs.Flows.{IsCutOff, IsReachedSet};
ghost use Rattle.cb_flow.specs.Networks.{AreGains, IsHeld};
ghost use Rattle.cb_flow.specs.Visits.{CanCarry, IsGreater, IsOpenVisit, carried, parent_of};

use crate::graph::Graph;
use crate::search::{Search, unmark, unmark_visited};
use crate::visit::{Visit, Way};
use cb_dag::negative_part;
use cb_plain::Flow;

/// Makes a flow the greatest: as long as a walk leads from the source to the sink along which more could flow, as much as may flows along it. Tells
/// in the search to which parts more could flow then. Walks are found by way of one part after the other, in short searches, in this order; the last
/// search, from all parts at once, shows that none was missed, whatever the order is.
pub(crate) fn flow_most(
    graph: &Graph,
    order: &[u32],
    gains: &[i64],
    flow: &mut Flow,
    search: &mut Search,
)
    requires gains { AreGains graph.now.parts gains.now }
    requires held { IsHeld gains.now graph.now.edges flow.old }
    requires visit_each { length search.old.visits.items ≡ length gains.now }
    requires seen_each { length search.old.seen.items ≡ length gains.now }
    ensures held { IsHeld gains.now graph.now.edges flow.new }
    ensures reached { IsReachedSet gains.now graph.now.edges flow.new search.new.seen.items }
    ensures cut_off { IsCutOff gains.now graph.now.edges flow.new }
    ensures visit_each { length search.new.visits.items ≡ length gains.now }
    ensures seen_each { length search.new.seen.items ≡ length gains.now }
{
    flow_from_each(graph, order, gains, flow, search);
    while let Some(at) = search.run(graph, gains, flow) {
        flow_along(graph, gains, flow, search, at);
    }
}

/// Lets more flow by way of each part to which it could straight from the source, in this order.
fn flow_from_each(graph: &Graph, order: &[u32], gains: &[i64], flow: &mut Flow, search: &mut Search)
    requires gains { AreGains graph.now.parts gains.now }
    requires held { IsHeld gains.now graph.now.edges flow.old }
    requires visit_each { length search.old.visits.items ≡ length gains.now }
    requires seen_each { length search.old.seen.items ≡ length gains.now }
    ensures held { IsHeld gains.now graph.now.edges flow.new }
    ensures visit_each { length search.new.visits.items ≡ length gains.now }
    ensures seen_each { length search.new.seen.items ≡ length gains.now }
{
    let parts = graph.parts();
    unmark(&mut search.seen);
    for part in order {
        if *part < parts {
            flow_from(graph, gains, flow, search, *part);
        }
    }
}

/// Lets more flow by way of one part, as long as a walk is found that passes no marked part. The parts of the last search, which found none, stay
/// marked: no walk that passes none of them can bring about one from them to the sink.
fn flow_from(graph: &Graph, gains: &[i64], flow: &mut Flow, search: &mut Search, part: u32)
    requires gains { AreGains graph.now.parts gains.now }
    requires held { IsHeld gains.now graph.now.edges flow.old }
    requires visit_each { length search.old.visits.items ≡ length gains.now }
    requires seen_each { length search.old.seen.items ≡ length gains.now }
    requires part { part < length gains.now }
    ensures held { IsHeld gains.now graph.now.edges flow.new }
    ensures visit_each { length search.new.visits.items ≡ length gains.now }
    ensures seen_each { length search.new.seen.items ≡ length gains.now }
{
    while let Some(at) = search.run_from(graph, gains, flow, part) {
        flow_along(graph, gains, flow, search, at);
        unmark_visited(&mut search.seen, &search.visits, search.count);
    }
}

/// Lets as much as may flow along the walk of a visit to the sink.
fn flow_along(graph: &Graph, gains: &[i64], flow: &mut Flow, search: &Search, at: usize)
    requires gains { AreGains graph.now.parts gains.now }
    requires held { IsHeld gains.now graph.now.edges flow.old }
    requires visit { IsOpenVisit gains.now graph.now.edges flow.old search.now.visits.items search.now.count search.now.seen.items at }
    ensures { IsGreater gains.now graph.now.edges flow.old flow.new }
{
    let _parts = graph.parts();
    let visit = search.visits[at];
    let flows = flow.sink(visit.part);
    let amount = visit
        .room
        .min(negative_part(gains[visit.part as usize]) - flows);
    flow.set_sink(visit.part, flows + amount);
    let mut at = at;
    while let Some(parent) = carry(flow, search.visits[at], amount) {
        at = parent as usize;
    }
    let part = search.visits[at].part;
    flow.set_source(part, flow.source(part) + amount);
}

/// Lets more flow along the way of a visit, and tells from which visit it comes, unless it is straight from the source.
fn carry(flow: &mut Flow, visit: Visit, amount: u64) -> Option<u32>
    requires { CanCarry visit.way visit amount flow.old }
    ensures flow { flow.new ≡ carried visit.way visit amount flow.old }
    ensures parent { result ≡ parent_of visit.way visit }
{
    match visit.way {
        Way::FromSource => None,
        Way::Onwards => {
            flow.set_arc(visit.edge, flow.arc(visit.edge) + amount);
            Some(visit.parent)
        }
        Way::GivenBack => {
            flow.set_arc(visit.edge, flow.arc(visit.edge) - amount);
            Some(visit.parent)
        }
    }
}
