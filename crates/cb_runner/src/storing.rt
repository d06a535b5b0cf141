// The store of a run.
ghost use Rattle.std.specs.Prelude.{◌≤◌, IfOk};
ghost use Rattle.cb_runner.specs.Executing.{IsFirst};
ghost use Rattle.cb_runner.specs.Inner.{run_of};
ghost use Rattle.cb_safety.specs.Linked.{IsLinked};

use crate::one_part::{one_part, site_parts};
use crate::run_words::RunWords;
use crate::shapes::shapes_of;
use cb_collector::Collector;
use cb_io::SureSink;
use cb_link::Program;
use cb_partheap::PartHeap;
use cb_plain::OutOfMemory;
use cb_safety::linked_has_start;
use std::alloc::Global;

/// A store of so many blocks for the objects of a program, which all lie in one part. It takes all memory that it will ever have.
pub(crate) fn make_store(
    alloc: Global,
    program: &Program,
    asked: &RunWords<'_>,
) -> Result<Collector<SureSink>, OutOfMemory>
    requires linked { IsLinked program.now }
    requires blocks { asked.now.blocks ≤ 1048576 }
    ensures { IfOk result (IsFirst (run_of asked.now) program.now) }
{
    linked_has_start();
    let shapes = shapes_of(alloc, program)?;
    let sites = program.site_count();
    let graph = one_part(alloc, sites)?;
    let parts = site_parts(alloc, &graph, sites)?;
    let heap = PartHeap::make(alloc, shapes, parts, &graph, asked.blocks)?;
    Collector::make(alloc, heap, graph, SureSink::new())
}
