// Gains of bounded size.
ghost use Rattle.std.specs.Prelude.{◌≡◌, ◌≤◌, ◌^◌, IfOk};
ghost use Rattle.cb_dag.specs.Flows.{negative, positive};
ghost use Rattle.cb_flow.specs.Networks.{AreGains};

use std::alloc::{AllocError, Global};

/// The greatest size of a gain.
const MOST: i64 = 268_435_456;

/// A gain for each part: those that are given, brought within bounds, and then 0.
pub(crate) fn gains_of(alloc: Global, parts: u32, given: &[i64]) -> Result<Vec<i64>, AllocError>
    ensures { IfOk result (λ gains. AreGains parts gains.items) }
{
    let mut gains = Vec::new(alloc);
    for part in 0..parts {
        let gain = given.get(part as usize).copied().unwrap_or(0);
        gains.push(within(gain))?;
    }
    Ok(gains)
}

/// A gain, brought within bounds.
fn within(gain: i64) -> i64
    ensures high { positive result ≤ 2 ^ 28 }
    ensures low { negative result ≤ 2 ^ 28 }
{
    gain.max(-MOST).min(MOST)
}
