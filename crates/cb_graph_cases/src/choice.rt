// What there is to say of the best set of a case.
ghost use Rattle.std.specs.Prelude.{◌≡◌, length};
ghost use Rattle.cb_flow.specs.Networks.{AreGains};

use crate::case::Case;
use crate::change::{Change, apply};
use cb_chooser::Chooser;
use cb_cut::{CutFault, check};
use cb_dag::Dag;
use cb_plain::{Flow, Set};
use std::alloc::{AllocError, Global};

/// Tells the best set, what it gains and how much flows, and what the checker says of it and its flow, or of others.
pub(crate) fn tell_choice(
    alloc: Global,
    case: &Case,
    dag: &Dag,
    gains: &[i64],
    told: &mut String,
) -> Result<(), AllocError>
    requires { AreGains dag.now.parts gains.now }
{
    let parts = dag.parts();
    let mut chooser = Chooser::make(alloc, dag)?;
    let mut set = Set::make(alloc, parts)?;
    choose_again(&mut chooser, gains, &mut set, case.times.choose);
    chooser.choose(gains, &mut set);
    tell_set(&set, told)?;
    let gained = gain_of_set(gains, &set);
    let flows = from_source(chooser.flow(), parts);
    write!(told, " gains {gained}, flow {flows}")?;
    let changes = case.changes.as_slice();
    let checked = if changes.is_empty() {
        check(dag, gains, &set, chooser.flow())
    } else {
        check_changed(alloc, dag, gains, changes)?
    };
    match checked {
        Ok(()) => told.push_str(" | shown")?,
        Err(fault) => write!(told, " | {fault}")?,
    }
    Ok(())
}

/// Chooses so many times.
fn choose_again(chooser: &mut Chooser, gains: &[i64], set: &mut Set, times: u32)
    requires gains { AreGains chooser.old.parts gains.now }
    requires set { length set.old ≡ chooser.old.parts }
    ensures parts { chooser.new.parts ≡ chooser.old.parts }
    ensures edges { chooser.new.edges ≡ chooser.old.edges }
    ensures set { length set.new ≡ chooser.new.parts }
{
    for _ in 0..times {
        chooser.choose(gains, set);
    }
}

/// Tells the parts of a set.
fn tell_set(set: &Set, told: &mut String) -> Result<(), AllocError> {
    told.push_str(" |")?;
    for part in 0..set.parts() {
        if set.has(part) {
            write!(told, " {part}")?;
        }
    }
    Ok(())
}

/// What the parts of a set gain.
fn gain_of_set(gains: &[i64], set: &Set) -> i64
    requires { length set.now ≡ length gains.now }
{
    let mut gained = 0_i64;
    for (part, gain) in gains.iter().enumerate() {
        if set.as_slice()[part] {
            gained = gained.saturating_add(*gain);
        }
    }
    gained
}

/// What flows from the source.
fn from_source(flow: &Flow, parts: u32) -> u64
    requires { length flow.now.sources ≡ parts }
{
    let mut flows = 0_u64;
    for part in 0..parts {
        flows = flows.saturating_add(flow.source(part));
    }
    flows
}

/// What the checker says of a flow and a set that have these changes.
fn check_changed(
    alloc: Global,
    dag: &Dag,
    gains: &[i64],
    changes: &[Change],
) -> Result<Result<(), CutFault>, AllocError>
    requires { AreGains dag.now.parts gains.now }
{
    let parts = dag.parts();
    let edges = dag.edges().len() as u32;
    let mut set = Set::make(alloc, parts)?;
    let mut flow = Flow::make(alloc, parts, edges)?;
    for change in changes {
        apply(*change, parts, edges, &mut flow, &mut set);
    }
    Ok(check(dag, gains, &set, &flow))
}
