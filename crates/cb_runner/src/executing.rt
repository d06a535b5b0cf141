// Running a program that is linked and typed.
ghost use Rattle.std.specs.Prelude.{◌≡◌, ◌<◌, ◌≤◌, ◌^◌, length, IfOk, Ok};
ghost use Rattle.cb_interp.specs.Starting.{new_roots};
ghost use Rattle.cb_interp.specs.declared.end.End.TheVariants as ends;
ghost use Rattle.cb_io.specs.Faults.{CountsFaults};
ghost use Rattle.cb_partheap.specs.Heaps.{objects_in, settings_in};
ghost use Rattle.cb_runner.specs.Executing.{ComesTo, HasBegun, IsFirst, IsOfProgram, IsPrepared, IsStopOver, MayStop, RunsToEnd};
ghost use Rattle.cb_runner.specs.Inner.{AreTexts, HasRunTo, run_of, words_of};
ghost use Rattle.cb_runner.specs.Running.{texts_of as texts};
ghost use Rattle.cb_runner.specs.Words.{AreFew};
ghost use Rattle.cb_runner.specs.declared.stop.Stop.TheVariants as stops;
ghost use Rattle.cb_safety.specs.Linked.{IsLinked};
ghost use Rattle.cb_verify.specs.Typed.{IsTyped};

use crate::arguments::texts_of;
use crate::ending::{stop_of, unbegun};
use crate::run_words::RunWords;
use crate::stop::Stop;
use crate::stopped::Stopped;
use crate::storing::make_store;
use cb_collector::Collector;
use cb_frames::Roots;
use cb_heap::NoRoom;
use cb_interp::{End, make_roots, run, start, starts_stand};
use cb_io::{Sink, Source, SureSink};
use cb_link::Program;
use cb_plain::{OutOfMemory, Request};
use cb_safety::linked_has_start;
use cb_text::{List, Units};
use std::alloc::Global;

/// What a run begins with: a store without objects, new roots, and the arguments.
#[derive(Drop)]
pub(crate) struct Prepared {
    pub store: Collector<SureSink>,
    pub roots: Roots,
    pub given: List<Units>,
}

/// Runs a program that is linked and typed, as words say. All memory is taken before its start.
pub(crate) fn run_program<I: Source, O: Sink>(
    alloc: Global,
    program: Program,
    asked: &RunWords<'_>,
    input: &mut I,
    out: &mut O,
) -> Stopped
    requires linked { IsLinked program }
    requires fits { IsTyped program }
    requires few { AreFew (words_of asked.now.arguments) }
    requires steps { asked.now.steps ≤ 10000000000 }
    requires blocks { asked.now.blocks ≤ 1048576 }
    ensures runs { HasRunTo I.left I.gave (run_of asked.now) program input.old input.new (O.taken out.old) (O.taken out.new) result.store result.stop }
    ensures fault { CountsFaults (O.faults out.old) (O.faults out.new) (result.stop ≡ stops.OutputFault) }
    ensures read { CountsFaults (I.faults input.old) (I.faults input.new) (result.stop ≡ stops.InputFault) }
{
    match prepare(alloc, &program, asked) {
        Ok(prepared) => run_prepared(program, prepared, asked, input, out),
        Err(OutOfMemory) => {
            drop(program);
            Stopped::of(Stop::OutOfMemory)
        }
    }
}

/// Makes what a run begins with.
fn prepare(alloc: Global, program: &Program, asked: &RunWords<'_>) -> Result<Prepared, OutOfMemory>
    requires linked { IsLinked program.now }
    requires few { AreFew (words_of asked.now.arguments) }
    requires blocks { asked.now.blocks ≤ 1048576 }
    ensures { IfOk result (IsPrepared (run_of asked.now) program.now) }
{
    let given = texts_of(alloc, &asked.arguments)?;
    let roots = make_roots(alloc, program, asked.frames)?;
    let store = make_store(alloc, program, asked)?;
    Ok(Prepared {
        store,
        roots,
        given,
    })
}

/// Runs a program over what was made for it.
fn run_prepared<I: Source, O: Sink>(
    program: Program,
    prepared: Prepared,
    asked: &RunWords<'_>,
    input: &mut I,
    out: &mut O,
) -> Stopped
    requires linked { IsLinked program }
    requires fits { IsTyped program }
    requires steps { asked.now.steps ≤ 10000000000 }
    requires ready { IsPrepared (run_of asked.now) program prepared }
    ensures runs { HasRunTo I.left I.gave (run_of asked.now) program input.old input.new (O.taken out.old) (O.taken out.new) result.store result.stop }
    ensures fault { CountsFaults (O.faults out.old) (O.faults out.new) (result.stop ≡ stops.OutputFault) }
    ensures read { CountsFaults (I.faults input.old) (I.faults input.new) (result.stop ≡ stops.InputFault) }
{
    let Prepared {
        mut store,
        mut roots,
        given,
    } = prepared;
    let ended = run_from(
        &program,
        &mut store,
        &mut roots,
        asked,
        given.as_slice(),
        input,
        out,
    );
    drop(given);
    drop(roots);
    let stop = stop_over(program, &store, asked, ended);
    Stopped {
        stop,
        store: Some(store),
    }
}

/// How a command stops whose run has ended so, or hasn't begun for want of room.
fn stop_over(
    program: Program,
    store: &Collector<SureSink>,
    asked: &RunWords<'_>,
    ended: Result<End, NoRoom>,
) -> Stop
    requires linked { IsLinked program }
    requires fits { IsTyped program }
    requires may { MayStop program store.now.heap ended }
    ensures { IsStopOver (run_of asked.now) program store.now ended result }
{
    match ended {
        Ok(end) => stop_of(program, asked, end),
        Err(reason) => {
            drop(program);
            unbegun(reason)
        }
    }
}

/// Runs a program over a new store, with new roots. An error is that it hasn't begun for want of room.
fn run_from<I: Source, O: Sink>(
    program: &Program,
    store: &mut Collector<SureSink>,
    roots: &mut Roots,
    asked: &RunWords<'_>,
    given: &[Units],
    input: &mut I,
    out: &mut O,
) -> Result<End, NoRoom>
    requires linked { IsLinked program.now }
    requires fits { IsTyped program.now }
    requires steps { asked.now.steps ≤ 10000000000 }
    requires first { IsFirst (run_of asked.now) program.now store.old }
    requires new { roots.old.roots ≡ new_roots program.now }
    requires limit { roots.old.limit ≡ asked.now.frames }
    requires given { given.now ≡ texts (run_of asked.now) }
    requires texts { AreTexts (texts (run_of asked.now)) }
    ensures comes { ComesTo I.left I.gave (run_of asked.now) program.now store.new input.old input.new (O.taken out.old) (O.taken out.new) result }
    ensures may { MayStop program.now store.new.heap result }
    ensures fault { CountsFaults (O.faults out.old) (O.faults out.new) (result ≡ Ok ends.OutputFault) }
    ensures read { CountsFaults (I.faults input.old) (I.faults input.new) (result ≡ Ok ends.InputFault) }
{
    linked_has_start();
    let mut request = Request::new();
    match start(program, store, roots, &mut request, given) {
        Ok(()) => Ok(run_on(program, store, roots, asked, input, out)),
        Err(reason) => Err(reason),
    }
}

/// Runs a program from its start on.
fn run_on<I: Source, O: Sink>(
    program: &Program,
    store: &mut Collector<SureSink>,
    roots: &mut Roots,
    asked: &RunWords<'_>,
    input: &mut I,
    out: &mut O,
) -> End
    requires linked { IsLinked program.now }
    requires fits { IsTyped program.now }
    requires steps { asked.now.steps ≤ 10000000000 }
    requires of { IsOfProgram program.now (settings_in store.old.heap) }
    requires limit { roots.old.limit ≡ asked.now.frames }
    requires texts { AreTexts (texts (run_of asked.now)) }
    requires begun { HasBegun (run_of asked.now) program.now store.old roots.old.roots }
    ensures comes { RunsToEnd I.left I.gave (run_of asked.now) program.now store.new input.old input.new (O.taken out.old) (O.taken out.new) result }
    ensures may { MayStop program.now store.new.heap (Ok result) }
    ensures fault { CountsFaults (O.faults out.old) (O.faults out.new) (result ≡ ends.OutputFault) }
    ensures read { CountsFaults (I.faults input.old) (I.faults input.new) (result ≡ ends.InputFault) }
{
    starts_stand::<Collector<SureSink>>();
    run(program, store, roots, input, out, asked.steps)
}
