// The trial of all stores, over a heap in parts.
ghost use Rattle.std.specs.Prelude.{◌≡◌, length, IfOk};
ghost use Rattle.cb_memory_cases.specs.Trial.{IsReady, NamesNone, trial_kinds};

use cb_dag::{Dag, Grid, condense};
use cb_frames::{RootSizes, Roots};
use cb_partheap::PartHeap;
use cb_partheap_tests::{Resting, parts_of_sites};
use cb_plain::{Marks, OutOfMemory, Request, Shape, Shapes};
use cb_rows::Trouble;
use cb_store_trial::linked;
use std::alloc::Global;

/// Objects without words, and objects of one reference.
fn kinds(alloc: Global) -> Result<Shapes, OutOfMemory>
    ensures { IfOk result (λ shapes. shapes ≡ trial_kinds) }
{
    let mut marks = Marks::new(alloc);
    marks.push(true)?;
    let mut shapes = Shapes::new(alloc);
    shapes.push(Shape::Fields(Marks::new(alloc)))?;
    shapes.push(Shape::Fields(marks))?;
    Ok(shapes)
}

/// A heap of one block for a graph of one site, if that has one part. There is room in it for all that the trial places.
fn heap_for(alloc: Global, dag: &Dag) -> Result<PartHeap, Trouble>
    requires { length dag.now.part_of ≡ 1 }
    ensures { IfOk result IsReady }
{
    if dag.parts() != 1 {
        return Err(Trouble::Refused);
    }
    let site_parts = parts_of_sites(alloc, dag, 1)?;
    let shapes = kinds(alloc)?;
    let heap = PartHeap::make(alloc, shapes, site_parts, dag, 1)?;
    Ok(heap)
}

/// Such a heap for the graph of one site.
fn heap(alloc: Global) -> Result<PartHeap, Trouble>
    ensures { IfOk result IsReady }
{
    let grid = Grid::make(alloc, 1)?;
    let dag = condense(alloc, &grid).map_err(|_| Trouble::Refused)?;
    let made = heap_for(alloc, &dag);
    drop(dag);
    made
}

/// Roots that name nothing.
fn no_roots(alloc: Global) -> Result<Roots, OutOfMemory>
    ensures { IfOk result (λ roots. NamesNone roots.roots) }
{
    let sizes = RootSizes {
        frames: 1,
        statics: 0,
        constants: 0,
        kinds: 0,
        classes: 0,
    };
    Roots::make(alloc, sizes)
}

/// Tries a store from roots, and tells the serial that is read back.
fn try_from(store: &mut Resting, roots: &mut Roots, told: &mut String) -> Result<(), Trouble>
    requires ready { IsReady store.old.heap }
    requires none { NamesNone roots.old.roots }
{
    let mut request = Request::new();
    match linked(store, roots, &mut request) {
        Ok(serial) => write!(told, " {serial}")?,
        Err(_) => return Err(Trouble::Refused),
    }
    Ok(())
}

/// Tries a store over such a heap from roots.
fn try_heap(alloc: Global, roots: &mut Roots, told: &mut String) -> Result<(), Trouble>
    requires { NamesNone roots.old.roots }
{
    let mut store = Resting { heap: heap(alloc)? };
    let done = try_from(&mut store, roots, told);
    drop(store);
    done
}

/// Tries a store over such a heap, and tells the serial that is read back.
pub(crate) fn tell(alloc: Global, told: &mut String) -> Result<(), Trouble> {
    let mut roots = no_roots(alloc)?;
    let done = try_heap(alloc, &mut roots, told);
    drop(roots);
    done
}
