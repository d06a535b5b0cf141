// Heaps in parts and their calls, as rows of texts tell them.
ghost use Rattle.std.specs.Prelude.{◌≡◌, ◌<◌, ◌≤◌, ◌^◌, length, nat_lt, IfOk, IsTrue};
ghost use Rattle.std.specs.List.{All, AllByRecursion};
ghost use Rattle.cb_partheap.specs.Marks.{IsUnmarked};
ghost use Rattle.cb_partheap_tests.specs.Tried.{AllKept, IsKept};

use crate::tried::Tried;
use cb_dag::{Dag, Grid, condense};
use cb_partheap::{PartHeap, stay_unmarked};
use cb_plain::{Marks, Numbers, OutOfMemory, Request, Shape, Shapes};
use cb_rows::{Trouble, number_of};
use std::alloc::Global;
use std::str::{FromStr, SplitWhitespace};

// How many blocks and sites a row may ask for.
const MOST_BLOCKS: u32 = 1 << 20;

const MOST_SITES: u32 = 1 << 12;

// How many entries a request has at most.
const MOST_WANTS: u32 = 256;

/// The next number of a row. `NotUnderstood` where none comes.
pub fn next_number<N: FromStr>(words: &mut SplitWhitespace<'_>) -> Result<N, Trouble>
where
    N::Err: Drop,
{
    match words.next() {
        Some(word) => number_of(word),
        None => Err(Trouble::NotUnderstood),
    }
}

/// The kinds: objects of a reference and a number, arrays of numbers, and of references, and objects of two references.
fn kinds(alloc: Global) -> Result<Shapes, OutOfMemory> {
    let mut shapes = Shapes::new(alloc);
    shapes.push(Shape::Fields(two_marks(alloc, false)?))?;
    shapes.push(Shape::Elements(false))?;
    shapes.push(Shape::Elements(true))?;
    shapes.push(Shape::Fields(two_marks(alloc, true)?))?;
    Ok(shapes)
}

/// The marks of two fields, of which the first is a reference.
fn two_marks(alloc: Global, second: bool) -> Result<Marks, OutOfMemory> {
    let mut marks = Marks::new(alloc);
    marks.push(true)?;
    marks.push(second)?;
    Ok(marks)
}

/// The graph of a row: how many sites, how many edges, and where each begins and ends.
fn read_graph(alloc: Global, words: &mut SplitWhitespace<'_>) -> Result<Grid, Trouble> {
    let sites = next_number::<u32>(words)?;
    if sites > MOST_SITES {
        return Err(Trouble::NotUnderstood);
    }
    let mut grid = Grid::make(alloc, sites)?;
    for _ in 0..next_number::<u32>(words)? {
        let from = next_number::<u32>(words)?;
        let to = next_number::<u32>(words)?;
        if from < grid.nodes() && to < grid.nodes() {
            grid.put(from, to);
        }
    }
    Ok(grid)
}

/// The parts of so many sites of a graph. `OutOfMemory` where memory was not to be had.
pub fn parts_of_sites(alloc: Global, dag: &Dag, sites: u32) -> Result<Numbers, OutOfMemory>
    requires { sites ≤ length dag.now.part_of }
    ensures count { IfOk result (λ parts. length parts ≡ sites) }
    ensures below { IfOk result (λ parts. All (λ part. part < dag.now.parts) parts) }
{
    let _parts = dag.parts();
    let mut parts = Numbers::new(alloc);
    for site in 0..sites {
        parts.push(dag.part_of(site))?;
    }
    Ok(parts)
}

/// A heap without objects of so many blocks, for sites that each lie in a part of a graph.
fn make_empty(
    alloc: Global,
    dag: &Dag,
    site_parts: Numbers,
    blocks: u32,
) -> Result<Tried, OutOfMemory>
    requires sites { length site_parts ≤ 2 ^ 14 }
    requires parts { All (λ part. part < dag.now.parts) site_parts }
    requires blocks { blocks ≤ 2 ^ 20 }
    ensures kept { IfOk result (λ tried. AllKept tried.heap tried.places.items) }
    ensures unmarked { IfOk result (λ tried. IsUnmarked tried.heap) }
{
    let shapes = kinds(alloc)?;
    let heap = PartHeap::make(alloc, shapes, site_parts, dag, blocks)?;
    stay_unmarked();
    Ok(Tried::empty(alloc, heap))
}

/// A heap without objects of so many blocks, for the sites that are the nodes of a graph. `Refused` where these are too many, or there are too many edges,
/// `OutOfMemory` where memory was not to be had.
pub fn make_heap(alloc: Global, sites: &Grid, blocks: u32) -> Result<Tried, Trouble>
    requires { blocks ≤ 2 ^ 20 }
    ensures kept { IfOk result (λ tried. AllKept tried.heap tried.places.items) }
    ensures unmarked { IfOk result (λ tried. IsUnmarked tried.heap) }
{
    let dag = condense(alloc, sites).map_err(|_| Trouble::Refused)?;
    let count = sites.nodes();
    if count > MOST_SITES {
        return Err(Trouble::Refused);
    }
    let site_parts = parts_of_sites(alloc, &dag, count)?;
    let tried = make_empty(alloc, &dag, site_parts, blocks)?;
    Ok(tried)
}

/// The heap of a row, without objects: how many blocks it has, how many sites, and the edges between these. `NotUnderstood` where a row doesn't tell that,
/// or asks for too much, `Refused` where its graph has too many edges, `OutOfMemory` where memory was not to be had.
pub fn read_heap(alloc: Global, words: &mut SplitWhitespace<'_>) -> Result<Tried, Trouble>
    ensures kept { IfOk result (λ tried. AllKept tried.heap tried.places.items) }
    ensures unmarked { IfOk result (λ tried. IsUnmarked tried.heap) }
{
    let blocks = next_number::<u32>(words)?;
    if blocks > MOST_BLOCKS {
        return Err(Trouble::NotUnderstood);
    }
    let grid = read_graph(alloc, words)?;
    make_heap(alloc, &grid, blocks)
}

/// The request of a row: how many entries, and a site and words of each. Each site is below so many. `NotUnderstood` where a row doesn't tell that.
pub fn read_request(words: &mut SplitWhitespace<'_>, sites: u32) -> Result<Request, Trouble>
    ensures { IfOk result (λ request. AllByRecursion (λ want. IsTrue (nat_lt want.site sites)) request) }
{
    let mut request = Request::new();
    for _ in 0..next_number::<u32>(words)? {
        let site = next_number::<u32>(words)?;
        if site >= sites {
            return Err(Trouble::NotUnderstood);
        }
        let wanted = next_number(words)?;
        if request.len() >= MOST_WANTS {
            return Err(Trouble::NotUnderstood);
        }
        request.add(site, wanted);
    }
    Ok(request)
}

/// Makes a reference of an object lead to the one of a serial, or to none, if it has that word, it holds a reference, and it may refer there.
pub fn link(tried: &mut Tried, at: u64, i: u32, serial: usize) -> bool
    requires kept { AllKept tried.old.heap tried.old.places.items }
    requires there { IsKept tried.old.heap at }
    ensures kept { AllKept tried.new.heap tried.new.places.items }
    ensures unmarked { IsUnmarked tried.old.heap → IsUnmarked tried.new.heap }
{
    if serial == 0 {
        return tried.put_null(at, i);
    }
    if serial > tried.places.len() {
        return false;
    }
    let to = tried.places[serial - 1];
    tried.put_ref(at, i, to)
}
