// Arcs over their capacities.
ghost use Rattle.std.specs.Prelude.{◌≡◌, ◌<◌, ◌^◌, length};
ghost use Rattle.cb_cut.specs.Faults.{IsFirst, IsSinkWithin, IsSourceWithin};

use cb_dag::{negative_part, positive_part};
use cb_plain::Flow;

/// The first part to which more flows from the source than its gain, if there is any.
pub(crate) fn first_source_over(gains: &[i64], flow: &Flow) -> Option<u32>
    requires each { length flow.now.sources ≡ length gains.now }
    requires few { length gains.now < 2 ^ 32 }
    ensures { IsFirst (IsSourceWithin gains.now flow.now) (length gains.now) result }
{
    for (part, gain) in gains.iter().enumerate() {
        if flow.source(part as u32) > positive_part(*gain) {
            return Some(part as u32);
        }
    }
    None
}

/// The first part from which more flows to the sink than its gain is below 0, if there is any.
pub(crate) fn first_sink_over(gains: &[i64], flow: &Flow) -> Option<u32>
    requires each { length flow.now.sinks ≡ length gains.now }
    requires few { length gains.now < 2 ^ 32 }
    ensures { IsFirst (IsSinkWithin gains.now flow.now) (length gains.now) result }
{
    for (part, gain) in gains.iter().enumerate() {
        if flow.sink(part as u32) > negative_part(*gain) {
            return Some(part as u32);
        }
    }
    None
}
