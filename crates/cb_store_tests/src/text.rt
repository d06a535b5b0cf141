// A string over the store that never lets an object go.
ghost use Rattle.std.specs.Prelude.{◌≡◌, [], ◌∷◌, pred, IfOk, Some, map};
ghost use Rattle.cb_heap.specs.Reading.{serial_of};
ghost use Rattle.cb_store_tests.specs.Pair.{pair, text_kinds};

use crate::none::no_roots;
use crate::stop::Stop;
use cb_heap::{Store, TextSites, place_text};
use cb_mapheap::MapHeap;
use cb_plain::{Marks, OutOfMemory, Request, Shape, Shapes};
use std::alloc::{AllocError, Global};

/// A store of strings and of arrays of numbers.
fn store(alloc: Global) -> Result<MapHeap, OutOfMemory>
    ensures { IfOk result (λ heap. heap ≡ record { shapes = text_kinds; objects = []; granted = [] }) }
{
    let mut marks = Marks::new(alloc);
    marks.push(true)?;
    let mut shapes = Shapes::new(alloc);
    shapes.push(Shape::Fields(marks))?;
    shapes.push(Shape::Elements(false))?;
    Ok(MapHeap::make(alloc, shapes))
}

/// Places a string of two units, where it and its characters have one site, with room for just that.
fn place_pair(heap: &mut MapHeap) -> u64
    requires shapes { heap.old.shapes ≡ text_kinds }
    requires objects { heap.old.objects ≡ [] }
    requires room { heap.old.granted ≡ record { site = 7; words = 9 } ∷ [] }
    ensures objects { map Some heap.new.objects ≡ pair }
    ensures place { serial_of pred result ≡ 2 }
{
    let sites = TextSites {
        site: 7,
        kind: 0,
        characters: 7,
        array: 1,
    };
    place_text(heap, sites, &[104, 105])
}

/// Tells its length and that of its array, and both units.
fn tell_pair(told: &mut String, heap: &MapHeap, at: u64) -> Result<(), AllocError>
    requires objects { map Some heap.now.objects ≡ pair }
    requires place { serial_of pred at ≡ 2 }
{
    let array = heap.get_ref(at, 0);
    write!(told, "{} {}", heap.length(at), heap.length(array))?;
    write!(told, " {} {}", heap.get(array, 0), heap.get(array, 1))
}

/// Places a string, and tells what is read of it.
pub(crate) fn tell(alloc: Global, told: &mut String) -> Result<(), Stop> {
    let mut heap = store(alloc)?;
    let mut roots = no_roots(alloc)?;
    let mut request = Request::new();
    request.add(7, 9);
    heap.make_room(&request, &mut roots)?;
    let at = place_pair(&mut heap);
    Ok(tell_pair(told, &heap, at)?)
}
