// What flows into parts and out of them.
ghost use Rattle.std.specs.Prelude.{◌≡◌, ◌+◌, ◌*◌, ◌<◌, ◌≤◌, ◌^◌, length, slice_index, sum_by};
ghost use Rattle.std.specs.List.{All};
ghost use Rattle.cb_cut.specs.Faults.{IsBalanced, IsFirst};

use cb_dag::Dag;
use cb_plain::Flow;

/// The first part into which more or less flows than out of it, if there is any.
pub(crate) fn first_unbalanced(dag: &Dag, flow: &Flow) -> Option<u32>
    requires sources { length flow.now.sources ≡ dag.now.parts }
    requires sinks { length flow.now.sinks ≡ dag.now.parts }
    requires arcs { length flow.now.arcs ≡ length dag.now.edges }
    ensures { IsFirst (IsBalanced dag.now.edges flow.now) dag.now.parts result }
{
    let parts = dag.parts();
    for part in 0..parts {
        let inflow = u128::from(flow.source(part)) + amount(flow, dag.out_of(part));
        let outflow = u128::from(flow.sink(part)) + amount(flow, dag.into(part));
        if inflow != outflow {
            return Some(part);
        }
    }
    None
}

/// What flows along some edges.
fn amount(flow: &Flow, edges: &[u32]) -> u128
    requires within { All (λ edge. edge < length flow.now.arcs) edges.now }
    requires few { length edges.now ≤ 2 ^ 32 }
    ensures amount { result ≡ sum_by (λ edge. slice_index flow.now.arcs edge) edges.now }
    ensures bounded { result < 2 ^ 97 }
{
    let mut amount = 0_u128;
    for edge in edges {
        amount += u128::from(flow.arc(*edge));
    }
    amount
}
