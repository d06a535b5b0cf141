// What sets gain, and what flows bound.
ghost use Rattle.std.specs.Prelude.{◌≡◌, ◌<◌, ◌≤◌, ◌^◌, length, sum, sum_by};
ghost use Rattle.std.specs.List.{All};
ghost use Rattle.cb_dag.specs.Closed.{gain};
ghost use Rattle.cb_dag.specs.Flows.{bound, negative, positive};

use cb_dag::positive_part;
use cb_plain::{Flow, Set};

/// What the parts of a set gain.
pub(crate) fn gain_of_set(gains: &[i64], set: &Set) -> i128
    requires each { length set.now ≡ length gains.now }
    requires few { length gains.now < 2 ^ 32 }
    requires low { All (λ gained. positive gained ≤ 2 ^ 28) gains.now }
    requires high { All (λ gained. negative gained ≤ 2 ^ 28) gains.now }
    ensures { result ≡ gain gains.now set.now }
{
    let mut gained = 0_i128;
    for (part, gain) in gains.iter().enumerate() {
        if set.has(part as u32) {
            gained += i128::from(*gain);
        }
    }
    gained
}

/// The positive gains, less what flows from the source.
pub(crate) fn bound_of(gains: &[i64], flow: &Flow) -> i128
    requires each { length flow.now.sources ≡ length gains.now }
    requires few { length gains.now < 2 ^ 32 }
    requires low { All (λ gained. positive gained ≤ 2 ^ 28) gains.now }
    ensures { result ≡ bound gains.now flow.now }
{
    positive_gains(gains) as i128 - from_source(flow, gains.len() as u32) as i128
}

/// The sum of the positive gains.
fn positive_gains(gains: &[i64]) -> u128
    requires few { length gains.now < 2 ^ 32 }
    requires low { All (λ gained. positive gained ≤ 2 ^ 28) gains.now }
    ensures sum { result ≡ sum_by positive gains.now }
    ensures bounded { result ≤ 2 ^ 60 }
{
    let mut total = 0_u128;
    for gain in gains {
        total += u128::from(positive_part(*gain));
    }
    total
}

/// What flows from the source.
fn from_source(flow: &Flow, parts: u32) -> u128
    requires { length flow.now.sources ≡ parts }
    ensures sum { result ≡ sum flow.now.sources }
    ensures bounded { result ≤ 2 ^ 96 }
{
    let mut total = 0_u128;
    for part in 0..parts {
        total += u128::from(flow.source(part));
    }
    total
}
