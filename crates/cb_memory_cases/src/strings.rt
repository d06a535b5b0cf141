// A string in a heap in parts, and the stack of marking.
ghost use Rattle.std.specs.Prelude.{◌≡◌, ◌<◌, [], ◌∷◌, IfOk};
ghost use Rattle.cb_heap.specs.Reading.{serial_of};
ghost use Rattle.cb_partheap.specs.Heaps.{index_in, objects_in};
ghost use Rattle.cb_memory_cases.specs.Strings.{IsEmpty, pair, text_kinds};

use cb_dag::{Grid, condense};
use cb_heap::{Store, TextSites, place_text};
use cb_partheap::{MarkStack, PartHeap};
use cb_partheap_tests::{Resting, parts_of_sites};
use cb_plain::{Marks, OutOfMemory, Request, Shape, Shapes};
use cb_rows::{Trouble, number_of};
use std::alloc::{AllocError, Global};

// How many sites there are. No references lead between them, so that each is a part of its own.
const SITES: u32 = 8;

// How many places a stack has room for.
const ROOM: usize = 100;

/// Strings of one word, and arrays of numbers.
fn kinds(alloc: Global) -> Result<Shapes, OutOfMemory>
    ensures { IfOk result (λ shapes. shapes ≡ text_kinds) }
{
    let mut marks = Marks::new(alloc);
    marks.push(true)?;
    let mut shapes = Shapes::new(alloc);
    shapes.push(Shape::Fields(marks))?;
    shapes.push(Shape::Elements(false))?;
    Ok(shapes)
}

/// A heap of one block.
fn heap(alloc: Global) -> Result<PartHeap, Trouble>
    ensures { IfOk result IsEmpty }
{
    let grid = Grid::make(alloc, SITES)?;
    let dag = condense(alloc, &grid).map_err(|_| Trouble::Refused)?;
    let site_parts = parts_of_sites(alloc, &dag, SITES)?;
    Ok(PartHeap::make(alloc, kinds(alloc)?, site_parts, &dag, 1)?)
}

/// Places a string of two units, where it and its characters have one site, with room for just that.
fn place_pair(store: &mut Resting) -> u64
    requires empty { IsEmpty store.old.heap }
    requires room { store.old.heap.granted ≡ record { site = 7; words = 9 } ∷ [] }
    ensures objects { objects_in store.new.heap ≡ pair }
    ensures place { serial_of (index_in store.new.heap) result ≡ 2 }
{
    let sites = TextSites {
        site: 7,
        kind: 0,
        characters: 7,
        array: 1,
    };
    place_text(store, sites, &[104, 105])
}

/// Tells its length and that of its array, both units, its site, and the array's kind and serial.
fn tell_pair(store: &Resting, at: u64, told: &mut String) -> Result<(), AllocError>
    requires objects { objects_in store.now.heap ≡ pair }
    requires place { serial_of (index_in store.now.heap) at ≡ 2 }
{
    let array = store.get_ref(at, 0);
    write!(told, " {} {}", store.length(at), store.length(array))?;
    write!(told, " {} {}", store.get(array, 0), store.get(array, 1))?;
    write!(told, " {}", store.site(at))?;
    write!(told, " {} {}", store.kind(array), store.serial(array))
}

/// Places a string over the trait of stores, and tells what is read of it.
pub(crate) fn tell(alloc: Global, told: &mut String) -> Result<(), Trouble> {
    let mut heap = heap(alloc)?;
    let mut request = Request::new();
    request.add(7, 9);
    match heap.grant(&request) {
        Ok(()) => {
            let mut store = Resting { heap };
            let at = place_pair(&mut store);
            tell_pair(&store, at, told)?;
            Ok(())
        }
        Err(_) => Err(Trouble::Refused),
    }
}

/// Puts the numbers of a row on a stack, as far as it has room, and tells them as they are taken off.
pub(crate) fn tell_stack(alloc: Global, told: &mut String, row: &str) -> Result<(), Trouble> {
    let mut stack = MarkStack::make(alloc, ROOM)?;
    let mut count = 0;
    for word in row.split_whitespace() {
        if count < ROOM {
            stack.push(number_of(word)?);
            count += 1;
        }
    }
    for _ in 0..count {
        if let Some(at) = stack.pop() {
            write!(told, " {at}")?;
        }
    }
    told.push_str(if stack.pop().is_none() {
        " none"
    } else {
        " more"
    })?;
    Ok(())
}
