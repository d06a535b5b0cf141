// Which calls of an object in memory fail.
ghost use Rattle.std.specs.Prelude.{◌≡◌, ◌↔◌, ⊤, Contains, IsTrue};
ghost use Rattle.cb_io.specs.Calls.{FailsNext, first_call, after_call, after_fault};
ghost use Rattle.cb_io.specs.Faults.{CountsFaults};

use cb_plain::Numbers;
use std::marker::Model;

/// The numbers of the calls that fail, counted from 1, how many calls there were and how many of them failed.
/// Both counts stand still at the end of their type.
#[derive(Debug, Drop)]
pub(crate) struct Calls {
    failing: Numbers,
    made: u64,
    faults: u64,
}

impl Model for Calls {
    ghost use Rattle.cb_io.specs.Calls.{CallLog};

    ghost Value = { CallLog };

    ghost view = { λ calls. record { failing = calls.failing; made = calls.made; faults = calls.faults } };
}

impl Calls {
    /// No call so far.
    pub(crate) fn new(failing: Numbers) -> Self
        ensures { result ≡ first_call failing }
    {
        Calls {
            failing,
            made: 0,
            faults: 0,
        }
    }

    /// Counts one more call, and tells whether it fails. Takes time in the numbers.
    pub(crate) fn fails(&mut self) -> bool
        ensures listed { IsTrue result ↔ FailsNext self.old }
        ensures counted { self.new ≡ after_call result self.old }
        ensures cause { CountsFaults self.old.faults self.new.faults (IsTrue result) }
    {
        self.made = self.made.saturating_add(1);
        let fails = is_listed(self.failing.as_slice(), self.made);
        if fails {
            self.count_fault();
        }
        fails
    }

    /// Counts a fault that no number asked for.
    pub(crate) fn count_fault(&mut self)
        ensures counted { self.new ≡ after_fault self.old }
        ensures cause { CountsFaults self.old.faults self.new.faults ⊤ }
    {
        self.faults = self.faults.saturating_add(1);
    }
}

/// Whether a call's number is in the list.
fn is_listed(numbers: &[u32], call: u64) -> bool
    ensures { IsTrue result ↔ Contains numbers.now call }
{
    numbers.iter().any(|number| u64::from(*number) == call)
}
