// What a call answers.
ghost use Rattle.std.specs.Prelude.{◌≡◌};
ghost use Rattle.cb_collector.specs.Known.{no_tally};

use crate::Cause;
use cb_collector::Tally;
use cb_partheap::PartHeap;

/// How a call ended.
#[derive(Drop)]
pub struct Ended {
    /// The exit status of the program, which the cause determines.
    pub status: u8,
    /// How it ended.
    pub cause: Cause,
    /// What the collections of a run came to.
    pub tally: Tally,
    /// The heap of a run as it stands in the end. `None` where none has begun.
    pub left: Option<PartHeap>,
}

impl Ended {
    ghost use Rattle.std.specs.Prelude.{◌≡◌};
    ghost use Rattle.cb_runner.specs.Ending.{status_of};

    /// Ends by a cause.
    pub(crate) fn new(cause: Cause, tally: Tally, left: Option<PartHeap>) -> Self
        ensures cause { result.cause ≡ cause }
        ensures status { result.status ≡ status_of cause }
        ensures tally { result.tally ≡ tally }
        ensures left { result.left ≡ left }
    {
        Ended {
            status: cause.status(),
            cause,
            tally,
            left,
        }
    }
}

/// Without a collection.
pub(crate) fn no_tally() -> Tally
    ensures { result ≡ no_tally }
{
    Tally {
        partials: 0,
        fulls: 0,
        visited: 0,
        freed: 0,
    }
}
