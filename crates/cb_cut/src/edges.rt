// Edges into a set.
ghost use Rattle.std.specs.Prelude.{◌≡◌, length};
ghost use Rattle.cb_cut.specs.Faults.{IsFirst, KeepsClosed};

use cb_dag::Dag;
use cb_plain::Set;

/// The first edge that leads to a part of the set from one that isn't in it, if there is any.
pub(crate) fn first_open_edge(dag: &Dag, set: &Set) -> Option<u32>
    requires { length set.now ≡ dag.now.parts }
    ensures { IsFirst (KeepsClosed dag.now.edges set.now) (length dag.now.edges) result }
{
    let edges = dag.edges();
    for (i, edge) in edges.iter().enumerate() {
        if set.has(edge.1) && !set.has(edge.0) {
            return Some(i as u32);
        }
    }
    None
}
