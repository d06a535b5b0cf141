// The choice of a set of parts.
ghost use Rattle.std.specs.Prelude.{◌≡◌, ◌<◌, length, slice_get, IfOk, Some};
ghost use Rattle.cb_dag.specs.Closed.{IsBest};
ghost use Rattle.cb_dag.specs.Flows.{IsCertificate, IsCutOff, IsFlow, IsReachedSet};
ghost use Rattle.cb_dag.specs.Parts.{AreWithin};
ghost use Rattle.cb_flow.specs.Networks.{AreGains};

use cb_dag::Dag;
use cb_flow::Network;
use cb_plain::{Flow, OutOfMemory, Set, Steps};
use std::alloc::Global;
use std::marker::{Brand, Model};
use std::sync::ledger::{Blank, Ledger};

/// What chooses sets of parts of one graph. Contracts see it as the network of the graph.
#[derive(Drop)]
pub struct Chooser {
    network: Network,
}

impl Model for Chooser {
    ghost use Rattle.cb_flow.specs.Networks.{Network as Seen};

    ghost Value = { Seen };

    ghost view = { λ chooser. chooser.network };
}

impl Chooser {
    /// What chooses sets of parts of this graph. Takes time and memory in its parts and edges; no later call takes any. `OutOfMemory` where memory was not
    /// to be had.
    pub fn make(alloc: Global, dag: &Dag) -> Result<Chooser, OutOfMemory>
        ensures parts { IfOk result (λ chooser. chooser.parts ≡ dag.now.parts) }
        ensures edges { IfOk result (λ chooser. chooser.edges ≡ dag.now.edges) }
    {
        let network = Network::make(alloc, dag.parts(), dag.edges())?;
        Ok(Chooser { network })
    }

    /// Leaves the best set for these gains, one for each part: it is closed, no closed set gains more, and it is within each that gains as much. Takes
    /// time in the parts and edges for each walk of the flow that shows it.
    pub fn choose(&mut self, gains: &[i64], set: &mut Set)
        requires gains { AreGains self.old.parts gains.now }
        requires set { length set.old ≡ self.old.parts }
        ensures parts { self.new.parts ≡ self.old.parts }
        ensures edges { self.new.edges ≡ self.old.edges }
        ensures best { IsBest gains.now self.new.edges set.new }
        ensures certificate { IsCertificate gains.now self.new.edges set.new self.new.flow }
    {
        self.network.load(gains);
        solve_uncounted::<Brand>(&mut self.network, Blank::new(1));
        copy_reached(&self.network, set);
    }

    /// The flow that shows that no closed set gains more than the one that was chosen last.
    pub fn flow(&self) -> &Flow
        ensures { result.now ≡ self.now.flow }
    {
        self.network.flow()
    }
}

/// Solves a network, with a counter of its own.
fn solve_uncounted<L: Ledger>(network: &mut Network, blank: Blank)
    requires name { blank.name ≡ L.name }
    requires ledger_parts { blank.parts ≡ L.parts }
    requires some { 0 < blank.parts }
    ensures parts { network.new.parts ≡ network.old.parts }
    ensures edges { network.new.edges ≡ network.old.edges }
    ensures gains { network.new.gains ≡ network.old.gains }
    ensures is_flow { IsFlow network.new.gains network.new.edges network.new.flow }
    ensures each { length network.new.reached ≡ length network.new.gains }
    ensures reached { IsReachedSet network.new.gains network.new.edges network.new.flow network.new.reached }
    ensures cut_off { IsCutOff network.new.gains network.new.edges network.new.flow }
    ensures within { AreWithin network.new.parts network.new.edges }
{
    let mut steps = Steps::<L>::from_blank(blank);
    network.solve(&mut steps);
}

/// Leaves in a set the parts that were reached.
fn copy_reached(network: &Network, set: &mut Set)
    requires each { length set.old ≡ length network.now.reached }
    requires parts { network.now.parts ≡ length network.now.reached }
    ensures { set.new ≡ network.now.reached }
{
    for part in 0..set.parts() {
        let reached = network.reached(part);
        set.put(part, reached);
    }
}
