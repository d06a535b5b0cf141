// Flows looked at whether they show that a set gains the most.
ghost use Rattle.std.specs.Prelude.{◌≡◌, IfErr, OnErr, OnOk};
ghost use Rattle.cb_dag.specs.Closed.{NoneGainsMore, gain};
ghost use Rattle.cb_dag.specs.Flows.{IsCertificate, bound};
ghost use Rattle.cb_cut.specs.Faults.{AreOf, IsFirstFault, IsUnequal};

use crate::CutFault;
use crate::arcs::{first_sink_over, first_source_over};
use crate::balance::first_unbalanced;
use crate::edges::first_open_edge;
use crate::sums::{bound_of, gain_of_set};
use cb_dag::Dag;
use cb_plain::{Flow, Set};

/// Whether a flow shows that a set of parts is closed and that no closed set gains more (Picard 1976). Whoever made them isn't trusted. Takes time in the
/// parts and edges, and no memory. The first fault is answered, in this order: `NotClosed`, `OverCapacity`, `Unbalanced`, `Unequal`.
pub fn check(dag: &Dag, gains: &[i64], set: &Set, flow: &Flow) -> Result<(), CutFault>
    requires { AreOf dag.now.parts dag.now.edges gains.now set.now flow.now }
    ensures certificate { OnOk result (IsCertificate gains.now dag.now.edges set.now flow.now) }
    ensures fault { IfErr result (IsFirstFault gains.now dag.now.edges set.now flow.now) }
    ensures refused { OnErr result (¬ IsCertificate gains.now dag.now.edges set.now flow.now) }
    ensures greatest { OnOk result (NoneGainsMore gains.now dag.now.edges set.now) }
{
    let _parts = dag.parts();
    if let Some(edge) = first_open_edge(dag, set) {
        return Err(CutFault::NotClosed { edge });
    }
    if let Some(arc) = first_source_over(gains, flow) {
        return Err(CutFault::OverCapacity { arc });
    }
    if let Some(part) = first_sink_over(gains, flow) {
        let arc = dag.parts() + part;
        return Err(CutFault::OverCapacity { arc });
    }
    if let Some(part) = first_unbalanced(dag, flow) {
        return Err(CutFault::Unbalanced { part });
    }
    compare(dag, gains, set, flow)
}

/// Whether a closed set gains as much as a flow bounds.
fn compare(dag: &Dag, gains: &[i64], set: &Set, flow: &Flow) -> Result<(), CutFault>
    requires of { AreOf dag.now.parts dag.now.edges gains.now set.now flow.now }
    ensures ok { OnOk result (gain gains.now set.now ≡ bound gains.now flow.now) }
    ensures err { IfErr result (IsUnequal gains.now set.now flow.now) }
{
    let _parts = dag.parts();
    let gain = gain_of_set(gains, set);
    let bound = bound_of(gains, flow);
    if gain == bound {
        Ok(())
    } else {
        Err(CutFault::Unequal { gain, bound })
    }
}
