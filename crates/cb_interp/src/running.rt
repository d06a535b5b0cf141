// Runs over a store.
ghost use Rattle.cb_heap.specs.Storage.{view_in};
ghost use Rattle.std.specs.Prelude.{◌≡◌, ◌+◌, ◌*◌, ◌^◌, ◌<◌, ℕ, true, length, IsTrue, List, []};
ghost use Rattle.cb_heap.specs.Kept.{is_kept};
ghost use Rattle.cb_heap.specs.Reading.{serial_of};
ghost use Rattle.cb_io.specs.Faults.{CountsFaults};
ghost use Rattle.cb_plain.specs.State.{State};
ghost use Rattle.cb_safety.specs.States.{IsTypedState};
ghost use Rattle.std.specs.Io.KnownBytes.{Appends};
ghost use Rattle.cb_interp.specs.Running.{Ended, IsEndOf, IsThrownAt, IsUncaught, Ready, outside_of};
ghost use Rattle.cb_act.specs.Turning.{StandsAt, machine_of, moment_of, most_at_once};
ghost use Rattle.cb_interp.specs.declared.end.End.TheVariants as ends;
ghost use Rattle.cb_interp.specs.declared.stop.Stop.TheVariants as stops;

use crate::idle::ended;
use crate::turns::turns;
use crate::{End, Stop};
use cb_frames::Roots;
use cb_heap::{NoRoom, Store};
use cb_io::{Sink, Source};
use cb_link::Program;
use cb_plain::Request;

/// Runs a program from where roots and store stand, for at most so many steps. Each is a turn: room is made for what the step places, the step
/// is made, and the store collects where that calls `System.gc`. `full` is the state of the machine that never frees for which they stand, without
/// an input: a step that asks it is given what its calls give. Takes no memory but what the store takes.
pub fn run<S: Store, I: Source, O: Sink>(
    program: &Program,
    store: &mut S,
    roots: &mut Roots,
    input: &mut I,
    out: &mut O,
    steps: u64,
) -> End
    ghost full: { State }
    requires ready { Ready S.rules program.now (S.storage store.old) roots.old (outside_of full) }
    requires whole { IsTypedState program.now full }
    requires stands { StandsAt (moment_of (view_in (S.storage store.old) roots.old.roots) (outside_of full) (S.storage store.old).facts) full }
    requires few { S.rules.fixed ≡ true → length (S.storage store.old).kept + (steps + 1) * most_at_once < 2 ^ 63 }
    requires unread { full.input ≡ [] }
    ensures ended { Ended I.left I.gave S.rules (machine_of program.now roots.old.limit) steps result full
        (moment_of (view_in (S.storage store.old) roots.old.roots) (outside_of full) (S.storage store.old).facts)
        (view_in (S.storage store.new) roots.new.roots) (S.storage store.new).facts (O.taken out.old) (O.taken out.new) input.old input.new }
    ensures place { (class at : ℕ) → result ≡ ends.Uncaught class at → at ≡ roots.new.roots.pending }
    ensures thrown { (class at : ℕ) → result ≡ ends.Uncaught class at → IsThrownAt program.now (S.storage store.new).kept (serial_of (S.storage store.new).index at) }
    ensures appends { (said : List ℕ) × Appends (O.taken out.old) (O.taken out.new) said }
    ensures counted { CountsFaults (S.storage store.old).faults (S.storage store.new).faults (result ≡ ends.ReportFault) }
    ensures output { CountsFaults (O.faults out.old) (O.faults out.new) (result ≡ ends.OutputFault) }
    ensures read { CountsFaults (I.faults input.old) (I.faults input.new) (result ≡ ends.InputFault) }
{
    let mut request = Request::new();
    let mut made: u64 = 0;
    while made < steps {
        match turns(
            program,
            store,
            roots,
            &mut request,
            input,
            out,
            steps - made,
        ) {
            Ok(more) => made += more,
            Err(stop) => return stopped(store, roots, stop),
        }
    }
    match ended(roots) {
        Some(stop) => stopped(store, roots, stop),
        None => End::BudgetSpent,
    }
}

/// The end of a run of which no further turn is made.
fn stopped<S: Store>(store: &S, roots: &Roots, stop: Stop) -> End
    requires there { stop ≡ stops.Uncaught → IsTrue (is_kept (S.storage store.now).kept (serial_of (S.storage store.now).index roots.now.roots.pending)) }
    ensures is { IsEndOf (view_in (S.storage store.now) roots.now.roots) stop result }
    ensures place { (class at : ℕ) → result ≡ ends.Uncaught class at → at ≡ roots.now.roots.pending }
{
    match stop {
        Stop::Returned => End::Returned,
        Stop::Exited(status) => End::Exited(status),
        Stop::Uncaught => uncaught(store, roots),
        Stop::NoRoom(NoRoom::Full { live, asked, limit }) => End::HeapFull { live, asked, limit },
        Stop::NoRoom(NoRoom::ReportFault) => End::ReportFault,
        Stop::NoRoom(NoRoom::OutOfMemory) => End::OutOfMemory,
        Stop::InputFault => End::InputFault,
        Stop::OutputFault => End::OutputFault,
    }
}

/// The end where the pending exception finds no handler.
fn uncaught<S: Store>(store: &S, roots: &Roots) -> End
    requires { IsTrue (is_kept (S.storage store.now).kept (serial_of (S.storage store.now).index roots.now.roots.pending)) }
    ensures is { IsUncaught (view_in (S.storage store.now) roots.now.roots) result }
    ensures place { (class at : ℕ) → result ≡ ends.Uncaught class at → at ≡ roots.now.roots.pending }
{
    let at = roots.pending();
    End::Uncaught {
        class: store.kind(at),
        at,
    }
}
