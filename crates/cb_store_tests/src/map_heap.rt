// The store that never lets an object go, with ample memory.
ghost use Rattle.std.specs.Prelude.{◌≡◌, ◌+◌, ◌*◌, ◌≤◌, ◌<◌, ◌^◌, [], ◌∷◌, IfOk, IsTrue, Some, map};
ghost use Rattle.std.specs.List.{list_all};
ghost use Rattle.cb_heap.specs.Closed.{references_in};
ghost use Rattle.cb_heap.specs.Kept.{is_held};
ghost use Rattle.cb_plain.specs.Requests.{spent, words_at};
ghost use Rattle.cb_store_tests.specs.Cells.{HasArray, cells, two_kinds};

use crate::none::no_roots;
use crate::stop::Stop;
use cb_heap::Store;
use cb_mapheap::MapHeap;
use cb_plain::{Marks, OutOfMemory, Request, Shape, Shapes};
use std::alloc::Global;

// How many objects there are, of five words each. The array has as many words, and its header.
const COUNT: u32 = 100_000;

/// A store of two kinds: cells of a reference and a number, and arrays of references.
fn store(alloc: Global) -> Result<MapHeap, OutOfMemory>
    ensures { IfOk result (λ heap. heap ≡ record { shapes = two_kinds; objects = []; granted = [] }) }
{
    let mut marks = Marks::new(alloc);
    marks.push(true)?;
    marks.push(false)?;
    let mut shapes = Shapes::new(alloc);
    shapes.push(Shape::Fields(marks))?;
    shapes.push(Shape::Elements(true))?;
    Ok(MapHeap::make(alloc, shapes))
}

/// Places a cell with a number, which refers to the cell before it.
fn place_cell(heap: &mut MapHeap, number: u64)
    requires shapes { heap.old.shapes ≡ two_kinds }
    requires objects { map Some heap.old.objects ≡ cells number }
    requires few { number < 2 ^ 32 }
    requires room { 5 ≤ words_at heap.old.granted 7 }
    ensures shapes { heap.new.shapes ≡ heap.old.shapes }
    ensures objects { map Some heap.new.objects ≡ cells (number + 1) }
    ensures granted { heap.new.granted ≡ spent heap.old.granted 7 5 }
{
    let cell = heap.place(7, 0, 2);
    heap.put(cell, 1, number);
    heap.put_ref(cell, 0, number);
}

/// Places so many cells, and leaves room for more words.
fn place_cells(heap: &mut MapHeap, count: u32, more: u64)
    requires shapes { heap.old.shapes ≡ two_kinds }
    requires objects { heap.old.objects ≡ [] }
    requires room { heap.old.granted ≡ record { site = 7; words = 5 * count + more } ∷ [] }
    ensures shapes { heap.new.shapes ≡ heap.old.shapes }
    ensures objects { map Some heap.new.objects ≡ cells count }
    ensures granted { heap.new.granted ≡ record { site = 7; words = more } ∷ [] }
{
    for number in 0..count {
        place_cell(heap, number.into());
    }
}

/// Whether all cells are as they were written, from the last of so many to the first.
fn are_cells(heap: &MapHeap, count: u32) -> bool
    requires { map Some heap.now.objects ≡ cells count }
{
    let mut last = count.into();
    while last > 0 {
        if heap.get(last, 1) != last - 1 || heap.kind(last) != 0 || heap.length(last) != 2 {
            return false;
        }
        if heap.site(last) != 7 || heap.serial(last) != last {
            return false;
        }
        last = heap.get_ref(last, 0);
    }
    true
}

/// Places an array that refers to each of so many cells.
fn place_array(heap: &mut MapHeap, count: u32) -> u64
    requires shapes { heap.old.shapes ≡ two_kinds }
    requires objects { map Some heap.old.objects ≡ cells count }
    requires room { 3 + count ≤ words_at heap.old.granted 7 }
    ensures objects { HasArray count (map Some heap.new.objects) }
    ensures place { result ≡ count + 1 }
{
    let array = heap.place(7, 1, count);
    for i in 0..count {
        heap.put_ref(array, i, u64::from(i) + 1);
    }
    array
}

/// Whether an array of references to so many cells is as it was written.
fn is_array(heap: &MapHeap, array: u64, count: u32) -> bool
    requires objects { HasArray count (map Some heap.now.objects) }
    requires place { array ≡ count + 1 }
{
    if heap.kind(array) != 1 || heap.length(array) != count {
        return false;
    }
    for i in 0..count {
        if heap.get_ref(array, i) != u64::from(i) + 1 {
            return false;
        }
    }
    true
}

/// Places objects, each of which refers to the one before it, and an array of references to all, and tells whether these and that are read as
/// they were written.
pub(crate) fn tell(alloc: Global, told: &mut String) -> Result<(), Stop> {
    let mut heap = store(alloc)?;
    let mut roots = no_roots(alloc)?;
    let mut request = Request::new();
    request.add(7, 600_003);
    heap.make_room(&request, &mut roots)?;
    place_cells(&mut heap, COUNT, 100_003);
    let objects = are_cells(&heap, COUNT);
    let array = place_array(&mut heap, COUNT);
    Ok(write!(told, "{objects} {}", is_array(&heap, array, COUNT))?)
}

/// Places an array of six references that are null.
fn place_nulls(heap: &mut MapHeap)
    requires shapes { heap.old.shapes ≡ two_kinds }
    requires objects { heap.old.objects ≡ [] }
    requires room { heap.old.granted ≡ record { site = 7; words = 9 } ∷ [] }
    ensures { IsTrue (list_all (is_held (map Some heap.new.objects)) (references_in (map Some heap.new.objects))) }
{
    heap.place(7, 1, 6);
}

/// A store with an array of six references that are null, which are nine words.
fn with_array(alloc: Global) -> Result<MapHeap, Stop>
    ensures { IfOk result (λ heap. IsTrue (list_all (is_held (map Some heap.objects)) (references_in (map Some heap.objects)))) }
{
    let mut heap = store(alloc)?;
    let mut roots = no_roots(alloc)?;
    let mut request = Request::new();
    request.add(7, 9);
    heap.make_room(&request, &mut roots)?;
    place_nulls(&mut heap);
    Ok(heap)
}

/// Tells what is answered to a request for so many words where nine words stand, and to a collection.
pub(crate) fn tell_full(alloc: Global, told: &mut String, words: u64) -> Result<(), Stop> {
    let mut heap = with_array(alloc)?;
    let mut roots = no_roots(alloc)?;
    let mut request = Request::new();
    request.add(3, words);
    let made = heap.make_room(&request, &mut roots);
    let collected = heap.collect_all(&mut roots);
    Ok(write!(told, "{made:?} {collected:?}")?)
}
