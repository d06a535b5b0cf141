// What is told at the end of a run.
ghost use Rattle.std.specs.Prelude.{◌≡◌, ℕ, Some};
ghost use Rattle.cb_collector.specs.Held.{Held};
ghost use Rattle.cb_heap.specs.declared.no_room.NoRoom.TheVariants as rooms;
ghost use Rattle.cb_interp.specs.declared.end.End.TheVariants as ends;
ghost use Rattle.cb_io.specs.declared.sure_sink.SureSink.{SureSink};
ghost use Rattle.cb_link.specs.Program.{Linked};
ghost use Rattle.cb_runner.specs.Executing.{MayRefuse};
ghost use Rattle.cb_runner.specs.Inner.{IsRefusedStart, IsStopOf, MayTell, run_of};
ghost use Rattle.cb_runner.specs.declared.cause.Cause.TheVariants as causes;
ghost use Rattle.cb_runner.specs.declared.line.Line.TheVariants as lines;
ghost use Rattle.cb_runner.specs.declared.stop.Stop.TheVariants as stops;
ghost use Rattle.cb_safety.specs.Linked.{IsLinked};
ghost use Rattle.cb_verify.specs.Typed.{IsTyped};

use crate::Cause;
use crate::line::{Line, Unhandled};
use crate::run_words::RunWords;
use crate::stop::Stop;
use cb_heap::NoRoom;
use cb_interp::{End, exceptions_are_told};
use cb_link::Program;

/// How a command stops whose run has ended so. A program stays until an exception that found no handler is told.
pub(crate) fn stop_of(program: Program, asked: &RunWords<'_>, end: End) -> Stop
    requires linked { IsLinked program }
    requires fits { IsTyped program }
    requires reported { end ≡ ends.ReportFault → ⊥ }
    requires roomy { end ≡ ends.OutOfMemory → ⊥ }
    ensures { (store : Held SureSink) → MayTell program store.heap end → IsStopOf (run_of asked.now) program store end result }
{
    exceptions_are_told();
    match end {
        End::Uncaught { class, at } => Stop::Told(
            Cause::Uncaught(class),
            Line::Unhandled(Unhandled { program, at }),
        ),
        other => {
            drop(program);
            caught(asked, other)
        }
    }
}

/// How a command stops whose run has ended so, where that is for no exception.
fn caught(asked: &RunWords<'_>, end: End) -> Stop
    requires reported { end ≡ ends.ReportFault → ⊥ }
    requires roomy { end ≡ ends.OutOfMemory → ⊥ }
    requires caught { (class at : ℕ) → end ≡ ends.Uncaught class at → ⊥ }
    ensures { (program : Linked) (store : Held SureSink) → IsStopOf (run_of asked.now) program store end result }
{
    match end {
        End::Returned => Stop::Returned,
        End::Exited(status) => Stop::Exited(status),
        End::Uncaught { .. } => unreachable!(),
        End::BudgetSpent => Stop::Told(Cause::BudgetSpent, Line::Spent(asked.steps)),
        End::HeapFull { live, asked, limit } => full(live, asked, limit),
        End::InputFault => Stop::InputFault,
        End::OutputFault => Stop::OutputFault,
        End::ReportFault => unreachable!(),
        End::OutOfMemory => unreachable!(),
    }
}

/// How a command stops whose run hasn't begun for want of room.
pub(crate) fn unbegun(reason: NoRoom) -> Stop
    requires { MayRefuse reason }
    ensures { (store : Held SureSink) → IsRefusedStart (Some store) reason result }
{
    match reason {
        NoRoom::Full { live, asked, limit } => full(live, asked, limit),
        NoRoom::ReportFault => unreachable!(),
        NoRoom::OutOfMemory => unreachable!(),
    }
}

/// Stops since there is no room, with so many blocks live, asked for and allowed.
fn full(live: u64, asked: u64, limit: u64) -> Stop
    ensures { result ≡ stops.Told causes.HeapFull (lines.Full live asked limit) }
{
    Stop::Told(Cause::HeapFull, Line::Full { live, asked, limit })
}
