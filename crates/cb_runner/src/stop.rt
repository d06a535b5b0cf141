// How a command stops, before its last line is told.
ghost use Rattle.std.specs.Prelude.{◌≡◌, List, ℕ, IsErr};
ghost use Rattle.cb_interp.specs.Texts.{Writes};
ghost use Rattle.cb_io.specs.Faults.{CountsFaults};
ghost use Rattle.cb_runner.specs.Answer.{IsTold};
ghost use Rattle.cb_runner.specs.Inner.{IsKnownLine, IsRefusal, TellsWhole, cause_of, ending_with, line_of};
ghost use Rattle.cb_runner.specs.Messages.{MissingClass, reason_of};

use crate::line::Line;
use crate::{Cause, Refusal};
use cb_collector::Collector;
use cb_io::{Failed, Sink, SureSink, write_all};
use cb_plain::OutOfMemory;
use std::alloc::Global;

/// How a command stopped.
#[derive(Drop)]
pub(crate) enum Stop {
    /// It came to its end.
    Returned,
    /// The words are no command.
    Usage,
    /// What it was to do was refused, with this last line.
    Refused(String),
    /// The program that it ran called `exit` with this status.
    Exited(i32),
    /// The program that it ran ended for this cause, with this last line.
    Told(Cause, Line),
    /// A call of the folder failed.
    FolderFault,
    /// A call of the input failed.
    InputFault,
    /// A call of the output failed.
    OutputFault,
    /// No memory was to be had.
    OutOfMemory,
}

impl From<OutOfMemory> for Stop {
    ghost use Rattle.std.specs.Prelude.{◌≡◌};
    ghost use Rattle.cb_runner.specs.declared.stop.Stop.TheVariants.{OutOfMemory};

    ghost from_gives = { λ _ stop. stop ≡ OutOfMemory };

    fn from(_: OutOfMemory) -> Self {
        Stop::OutOfMemory
    }
}

impl Stop {
    /// Stops by a refusal, if there is memory for its line.
    pub(crate) fn refused(alloc: Global, refusal: Refusal) -> Self
        ensures { IsRefusal (reason_of refusal) result }
    {
        match format!(in alloc; "cbvm: {refusal}\n") {
            Ok(line) => Stop::Refused(line),
            Err(_) => Stop::OutOfMemory,
        }
    }

    /// Stops since a class has no file.
    pub(crate) fn missing_class(alloc: Global, name: &str) -> Self
        ensures { IsRefusal (MissingClass name.now) result }
    {
        match String::from_str(alloc, name) {
            Ok(name) => Stop::refused(alloc, Refusal::MissingClass { name }),
            Err(_) => Stop::OutOfMemory,
        }
    }

    /// Writes the last line, and gives the cause that is then the call's.
    pub(crate) fn tell<E: Sink>(&self, store: &Option<Collector<SureSink>>, err: &mut E) -> Cause
        requires whole { TellsWhole store.now self.now }
        ensures told { (out : List ℕ) (read : ℕ) → IsTold (ending_with store.now self.now out read) result (E.taken err.old) (E.taken err.new) }
        ensures fault { CountsFaults (E.faults err.old) (E.faults err.new) (result ≡ Cause.ErrFault) }
    {
        match self.write_line(store, err) {
            Ok(()) => self.cause(),
            Err(Failed) => Cause::ErrFault,
        }
    }

    /// Writes the last line. After a failed call a proper prefix of it was taken.
    fn write_line<E: Sink>(
        &self,
        store: &Option<Collector<SureSink>>,
        err: &mut E,
    ) -> Result<(), Failed>
        requires { TellsWhole store.now self.now }
        ensures written { Writes (E.taken err.old) (E.taken err.new) (line_of store.now self.now) result }
        ensures cause { CountsFaults (E.faults err.old) (E.faults err.new) (IsErr result) }
    {
        match self {
            Stop::Told(_, line) => line.write(store, err),
            other => write_all(err, other.known_line().as_bytes()),
        }
    }

    /// The cause that it tells.
    fn cause(&self) -> Cause
        ensures { result ≡ cause_of self.now }
    {
        match self {
            Stop::Returned => Cause::Returned,
            Stop::Usage => Cause::Usage,
            Stop::Refused(_) => Cause::Refused,
            Stop::Exited(status) => Cause::Exited(*status),
            Stop::Told(cause, _) => *cause,
            Stop::FolderFault => Cause::FolderFault,
            Stop::InputFault => Cause::InputFault,
            Stop::OutputFault => Cause::OutputFault,
            Stop::OutOfMemory => Cause::OutOfMemory,
        }
    }

    /// Its last line on the error output, or nothing, but for that of a program that was run.
    fn known_line(&self) -> &str
        ensures { IsKnownLine self.now result.now }
    {
        match self {
            Stop::Returned | Stop::Exited(_) | Stop::Told(_, _) => "",
            Stop::Usage => "cbvm: these words are no command\n",
            Stop::Refused(line) => line.as_str(),
            Stop::FolderFault => "cbvm: folder fault\n",
            Stop::InputFault => "cbvm: input fault\n",
            Stop::OutputFault => "cbvm: output fault\n",
            Stop::OutOfMemory => "cbvm: out of memory\n",
        }
    }
}
