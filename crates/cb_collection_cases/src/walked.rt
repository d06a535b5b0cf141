// What lies in a heap in parts, word by word.
ghost use Rattle.std.specs.Prelude.{◌<◌, length};

use cb_blocks::Blocks;
use cb_frames::Roots;
use cb_partheap::PartHeap;
use cb_plain::{Shape, Shapes};
use std::alloc::{AllocError, Global};

// A kind stands below this in the first word of a header, and the length of the contents above it.
const HALF: u64 = 1 << 32;

// Where in the region an object begins stands below this in its place.
const SPAN: u64 = 1 << 29;

/// An object: its place and serial, and where it stands.
#[derive(Clone, Copy, Drop)]
pub(crate) struct Stood {
    at: u64,
    serial: u64,
    part: u32,
    start: u64,
}

/// Adds the objects of a part to those that were found.
fn walk_part(words: &Blocks, part: u32, found: &mut Vec<Stood>) -> Result<(), AllocError>
    requires { part < length words.now.words }
{
    let used = words.used(part);
    let mut start = 0;
    while start < used && used - start >= 3 {
        let at = (part as u64 * SPAN)
            .wrapping_add(words.index_of(part, start))
            .wrapping_add(1);
        found.push(Stood {
            at,
            serial: words.word(part, start + 1),
            part,
            start,
        })?;
        let size = 3 + words.word(part, start) / HALF;
        if size >= used - start {
            return Ok(());
        }
        start += size;
    }
    Ok(())
}

/// All objects, part by part.
pub(crate) fn walk(alloc: Global, heap: &PartHeap) -> Result<Vec<Stood>, AllocError> {
    let mut found = Vec::new(alloc);
    for part in 0..heap.parts() {
        walk_part(&heap.words, part, &mut found)?;
    }
    Ok(found)
}

/// The serial of the object at a place, 0 where there is none.
fn serial_in(all: &[Stood], at: u64) -> u64 {
    for stood in all {
        if stood.at == at {
            return stood.serial;
        }
    }
    0
}

/// Whether a word of objects of a kind holds a reference.
fn holds(shapes: &Shapes, kind: u64, i: u64) -> bool {
    if kind >= shapes.len() as u64 {
        return false;
    }
    match shapes.get(kind as usize) {
        Shape::Fields(marks) => i < marks.len() as u64 && *marks.get(i as usize),
        Shape::Elements(mark) => *mark,
    }
}

/// A word of a part, 0 where it has none.
fn word_in(words: &Blocks, part: u32, i: u64) -> u64
    requires { part < length words.now.words }
{
    if i < words.used(part) {
        words.word(part, i)
    } else {
        0
    }
}

/// Tells an object: its serial, kind, length, third word, and the words of its contents.
fn tell_stood(
    heap: &PartHeap,
    all: &[Stood],
    stood: Stood,
    told: &mut String,
) -> Result<(), AllocError> {
    if stood.part >= heap.parts() || stood.start > SPAN {
        return Ok(());
    }
    let first = word_in(&heap.words, stood.part, stood.start);
    let third = word_in(&heap.words, stood.part, stood.start + 2);
    write!(
        told,
        " {} {} {} {third}",
        stood.serial,
        first % HALF,
        first / HALF
    )?;
    for i in 0..first / HALF {
        let word = word_in(&heap.words, stood.part, stood.start + 3 + i);
        if holds(&heap.shapes, first % HALF, i) {
            write!(told, " {}", serial_in(all, word))?;
        } else {
            write!(told, " {word}")?;
        }
    }
    Ok(())
}

/// Tells all objects, what roots refer to, and how many blocks are free.
pub(crate) fn tell_heap(
    heap: &PartHeap,
    roots: &Roots,
    all: &[Stood],
    told: &mut String,
) -> Result<(), AllocError> {
    for stood in all {
        tell_stood(heap, all, *stood, told)?;
    }
    told.push_str(" roots")?;
    for i in 0..roots.reference_count() {
        let at = roots.reference(i);
        if at != 0 {
            write!(told, " {}", serial_in(all, at))?;
        }
    }
    write!(told, " free {}", heap.words.blocks_free())
}
