// A heap in parts whose objects are all named, with calls that test their conditions.
ghost use Rattle.std.specs.Prelude.{◌≡◌, ◌+◌, ◌<◌, [], length, option_map, IfSome, IsTrue, OnOk, Some};
ghost use Rattle.std.specs.List.{All, AllByRecursion};
ghost use Rattle.cb_plain.specs.Requests.{words_at};
ghost use Rattle.cb_plain.specs.Updates.{object_in};
ghost use Rattle.cb_heap.specs.Kept.{content_at};
ghost use Rattle.cb_heap.specs.Reading.{serial_of};
ghost use Rattle.cb_heap.specs.Shaped.{has_size};
ghost use Rattle.cb_heap.specs.Store.{may_point};
ghost use Rattle.cb_partheap.specs.Heaps.{index_in, objects_in, part_of, settings_in};
ghost use Rattle.cb_partheap.specs.Marks.{IsUnmarked};
ghost use Rattle.cb_partheap_tests.specs.Tried.{AllKept, IsKept, is_word};

use crate::marking::mark;
use cb_blocks::NoBlocks;
use cb_partheap::{PartHeap, holds_reference};
use cb_plain::{Request, Shape, Shapes};
use std::alloc::{AllocError, Global};

// How many objects there may be.
const MOST_OBJECTS: usize = 1 << 22;

/// A heap, and the places of its objects by their serials.
#[derive(Drop)]
pub struct Tried {
    /// The heap.
    pub heap: PartHeap,
    /// The places, by serial from 1 on.
    pub places: Vec<u64>,
}

/// How many words are granted to a site.
fn room_at(request: &Request, site: u32) -> u64
    ensures { result ≡ words_at request.now site }
{
    for i in 0..request.len() {
        let want = request.at(i);
        if want.site == site {
            return want.words;
        }
    }
    0
}

/// Whether objects of a kind may have so many words.
fn fits(shapes: &Shapes, kind: u32, size: u32) -> bool
    ensures { result ≡ has_size shapes.now kind size }
{
    if kind as usize >= shapes.len() {
        return false;
    }
    match shapes.get(kind as usize) {
        Shape::Fields(marks) => marks.len() == size as usize,
        Shape::Elements(_) => true,
    }
}

/// Whether a word of an object holds a reference, if it has that word.
pub fn word_mark(heap: &PartHeap, at: u64, i: u32) -> Option<bool>
    requires { IsKept heap.now at }
    ensures { IfSome result (λ mark. IsTrue (is_word mark (content_at (objects_in heap.now) (serial_of (index_in heap.now) at) i))) }
{
    if i < heap.length(at) {
        Some(holds_reference(&heap.words, &heap.shapes, at, i))
    } else {
        None
    }
}

/// The part of an object, by its site.
fn part_by_site(heap: &PartHeap, at: u64) -> u32
    requires { IsKept heap.now at }
    ensures { option_map (λ object. part_of heap.now.site_parts object.site) (object_in (objects_in heap.now) (serial_of (index_in heap.now) at)) ≡ Some result }
{
    let site = heap.site(at);
    *heap.site_parts.get(site as usize)
}

/// Whether an object may refer to another.
fn may(heap: &PartHeap, at: u64, to: u64) -> bool
    requires one { IsKept heap.now at }
    requires other { IsKept heap.now to }
    ensures { IsTrue result → IsTrue (may_point (settings_in heap.now).allows (objects_in heap.now) (serial_of (index_in heap.now) at) (serial_of (index_in heap.now) to)) }
{
    let one = part_by_site(heap, at);
    let other = part_by_site(heap, to);
    if one == other {
        return true;
    }
    let nodes = heap.edges.nodes();
    if one < nodes && other < nodes {
        heap.edges.has(one, other)
    } else {
        false
    }
}

impl Tried {
    /// A heap without objects.
    pub fn empty(alloc: Global, heap: PartHeap) -> Tried
        requires { objects_in heap ≡ [] }
        ensures heap { result.heap ≡ heap }
        ensures kept { AllKept result.heap result.places.items }
    {
        Tried {
            heap,
            places: Vec::new(alloc),
        }
    }

    /// The serial of the object at a place, 0 for none. Takes time in the number of objects.
    pub fn serial_at(&self, to: u64) -> u64 {
        let found = self.places.iter().position(|place| *place == to);
        match found {
            Some(i) => i as u64 + 1,
            None => 0,
        }
    }

    /// Places an object and gives its serial, if there is room for it and its kind has so many words.
    pub fn place(&mut self, site: u32, kind: u32, size: u32) -> Result<Option<u64>, AllocError>
        requires { AllKept self.old.heap self.old.places.items }
        ensures kept { OnOk result (AllKept self.new.heap self.new.places.items) }
        ensures unmarked { IsUnmarked self.old.heap → IsUnmarked self.new.heap }
    {
        let words = u64::from(size) + 3;
        let room = room_at(&self.heap.granted, site);
        if words > room
            || !fits(&self.heap.shapes, kind, size)
            || self.places.len() >= MOST_OBJECTS
        {
            return Ok(None);
        }
        let at = self.heap.place(site, kind, size);
        self.places.push(at)?;
        Ok(Some(self.heap.serial(at)))
    }

    /// Grants room for what is asked for, at sites that there are.
    pub fn grant(&mut self, request: &Request) -> Result<(), NoBlocks>
        requires kept { AllKept self.old.heap self.old.places.items }
        requires known { AllByRecursion (λ want. IsTrue ((settings_in self.old.heap).knows want.site)) request.now }
        ensures kept { AllKept self.new.heap self.new.places.items }
        ensures unmarked { IsUnmarked self.old.heap → IsUnmarked self.new.heap }
    {
        self.heap.grant(request)
    }

    /// Puts a number into a word of the object of a serial, if it has that word and it holds a number.
    pub fn put(&mut self, at: u64, i: u32, number: u64) -> bool
        requires kept { AllKept self.old.heap self.old.places.items }
        requires there { IsKept self.old.heap at }
        ensures kept { AllKept self.new.heap self.new.places.items }
        ensures unmarked { IsUnmarked self.old.heap → IsUnmarked self.new.heap }
    {
        match word_mark(&self.heap, at, i) {
            Some(false) => {
                self.heap.put(at, i, number);
                true
            }
            _ => false,
        }
    }

    /// Puts a reference into a word of an object, if it has that word, it holds a reference, and it may refer there.
    pub fn put_ref(&mut self, at: u64, i: u32, to: u64) -> bool
        requires kept { AllKept self.old.heap self.old.places.items }
        requires there { IsKept self.old.heap at }
        requires held { IsKept self.old.heap to }
        ensures kept { AllKept self.new.heap self.new.places.items }
        ensures unmarked { IsUnmarked self.old.heap → IsUnmarked self.new.heap }
    {
        if !may(&self.heap, at, to) {
            return false;
        }
        match word_mark(&self.heap, at, i) {
            Some(true) => {
                self.heap.put_ref(at, i, to);
                true
            }
            _ => false,
        }
    }

    /// Puts null into a word of an object, if it has that word and it holds a reference.
    pub fn put_null(&mut self, at: u64, i: u32) -> bool
        requires kept { AllKept self.old.heap self.old.places.items }
        requires there { IsKept self.old.heap at }
        ensures kept { AllKept self.new.heap self.new.places.items }
        ensures unmarked { IsUnmarked self.old.heap → IsUnmarked self.new.heap }
    {
        match word_mark(&self.heap, at, i) {
            Some(true) => {
                self.heap.put_ref(at, i, 0);
                true
            }
            _ => false,
        }
    }

    /// Marks an object, and tells the mark that it had.
    pub fn mark(&mut self, at: u64) -> u64
        requires kept { AllKept self.old.heap self.old.places.items }
        requires there { IsKept self.old.heap at }
        ensures { AllKept self.new.heap self.new.places.items }
    {
        mark(&mut self.heap, at)
    }
}
