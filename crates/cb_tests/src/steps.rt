// Counters of steps.
ghost use Rattle.std.specs.Prelude.{◌≡◌, ◌+◌, ◌<◌};

use cb_plain::Steps;
use std::marker::Brand;
use std::sync::ledger::{Blank, Ledger};

/// Counts two steps.
fn tick_twice<L: Ledger>(steps: &mut Steps<L>)
    ensures { steps.new ≡ steps.old + 2 }
{
    steps.tick();
    steps.tick();
}

/// Counts two steps from none on.
fn two<L: Ledger>(blank: Blank)
    requires name { blank.name ≡ L.name }
    requires parts { blank.parts ≡ L.parts }
    requires some { 0 < blank.parts }
{
    let mut steps: Steps<L> = Steps::from_blank(blank);
    tick_twice(&mut steps);
}

/// Counts two steps by a counter of a ledger of its own.
pub(crate) fn count_two() {
    two::<Brand>(Blank::new(1));
}
