// How a command stopped, with the store of a program that was run.
ghost use Rattle.std.specs.Prelude.{◌≡◌, List, ℕ};
ghost use Rattle.cb_io.specs.Faults.{CountsFaults};
ghost use Rattle.cb_runner.specs.Answer.{IsTold};
ghost use Rattle.cb_runner.specs.Ending.{status_of};
ghost use Rattle.cb_runner.specs.Inner.{TellsWhole, ending_with, remains_in};
ghost use Rattle.cb_runner.specs.declared.cause.Cause.TheVariants as causes;

use crate::Cause;
use crate::ended::{Ended, no_tally};
use crate::stop::Stop;
use cb_collector::Collector;
use cb_io::{Sink, SureSink};

/// How a command stopped, and the store of the program that it ran, where one was made.
#[derive(Drop)]
pub(crate) struct Stopped {
    pub stop: Stop,
    pub store: Option<Collector<SureSink>>,
}

impl Stopped {
    ghost use Rattle.std.specs.Prelude.{◌≡◌, None};

    /// A stop without a run.
    pub(crate) fn of(stop: Stop) -> Self
        ensures stop { result.stop ≡ stop }
        ensures store { result.store ≡ None }
    {
        Stopped { stop, store: None }
    }

    /// Writes the last line, and gives the cause that is then the call's.
    pub(crate) fn tell<E: Sink>(&self, err: &mut E) -> Cause
        requires whole { TellsWhole self.now.store self.now.stop }
        ensures told { (out : List ℕ) (read : ℕ) → IsTold (ending_with self.now.store self.now.stop out read) result (E.taken err.old) (E.taken err.new) }
        ensures fault { CountsFaults (E.faults err.old) (E.faults err.new) (result ≡ causes.ErrFault) }
    {
        self.stop.tell(&self.store, err)
    }

    /// What a call answers that ends by this cause.
    pub(crate) fn ended(self, cause: Cause) -> Ended
        ensures cause { result.cause ≡ cause }
        ensures status { result.status ≡ status_of cause }
        ensures remains { record { tally = result.tally; heap = result.left } ≡ remains_in self.store }
    {
        let Stopped { stop, store } = self;
        drop(stop);
        match store {
            Some(store) => {
                let tally = store.tally();
                let (heap, output) = store.split();
                drop(output);
                Ended::new(cause, tally, Some(heap))
            }
            None => Ended::new(cause, no_tally(), None),
        }
    }
}
