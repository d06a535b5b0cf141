// Stores for arrays, with room for them.
ghost use Rattle.std.specs.Prelude.{◌≡◌, ◌+◌, ◌≤◌, ◌^◌, [], length, map, IfOk, Some};
ghost use Rattle.cb_plain.specs.Reach.{root_references};
ghost use Rattle.cb_plain.specs.Requests.{words_at};
ghost use Rattle.cb_memory_cases.specs.Timed.{IsReady, array_kinds};

use cb_dag::{Grid, condense};
use cb_frames::{RootSizes, Roots};
use cb_heap::Store;
use cb_mapheap::MapHeap;
use cb_partheap::PartHeap;
use cb_partheap_tests::{Resting, parts_of_sites};
use cb_plain::{OutOfMemory, Request, Shape, Shapes};
use cb_rows::Trouble;
use std::alloc::Global;

/// Arrays of numbers, and arrays of references.
fn kinds(alloc: Global) -> Result<Shapes, OutOfMemory>
    ensures { IfOk result (λ shapes. shapes ≡ array_kinds) }
{
    let mut shapes = Shapes::new(alloc);
    shapes.push(Shape::Elements(false))?;
    shapes.push(Shape::Elements(true))?;
    Ok(shapes)
}

/// Roots that name nothing.
fn no_roots(alloc: Global) -> Result<Roots, OutOfMemory>
    ensures { IfOk result (λ roots. root_references roots.roots ≡ []) }
{
    Roots::make(
        alloc,
        RootSizes {
            frames: 1,
            statics: 0,
            constants: 0,
            kinds: 0,
            classes: 0,
        },
    )
}

/// A store over a heap in parts, with room for so many words at the site 0.
pub(crate) fn part_store(alloc: Global, words: u64) -> Result<Resting, Trouble>
    requires { words ≤ 2 ^ 28 }
    ensures { IfOk result (λ store. IsReady store.heap words) }
{
    let grid = Grid::make(alloc, 1)?;
    let dag = condense(alloc, &grid).map_err(|_| Trouble::Refused)?;
    let site_parts = parts_of_sites(alloc, &dag, 1)?;
    let blocks = ((words + 255) / 256) as u32;
    let mut heap = PartHeap::make(alloc, kinds(alloc)?, site_parts, &dag, blocks)?;
    let mut request = Request::new();
    request.add(0, words);
    match heap.grant(&request) {
        Ok(()) => Ok(Resting { heap }),
        Err(_) => Err(Trouble::Refused),
    }
}

/// A store that never lets an object go, with room for so many words at the site 0.
pub(crate) fn map_store(alloc: Global, words: u64) -> Result<MapHeap, Trouble>
    requires { words ≤ 2 ^ 28 }
    ensures shapes { IfOk result (λ store. store.shapes ≡ array_kinds) }
    ensures room { IfOk result (λ store. words_at store.granted 0 ≡ words) }
    ensures objects { IfOk result (λ store. length (map Some store.objects) ≡ 0) }
{
    let mut store = MapHeap::make(alloc, kinds(alloc)?);
    let mut roots = no_roots(alloc)?;
    let mut request = Request::new();
    request.add(0, words);
    match store.make_room(&request, &mut roots) {
        Ok(()) => Ok(store),
        Err(_) => Err(Trouble::Refused),
    }
}
