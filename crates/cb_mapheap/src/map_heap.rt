// The store that never lets an object go.
ghost use Rattle.std.specs.Prelude.{◌≡◌, ◌+◌, ◌/◌, ◌<◌, ◌^◌, [], length, OnErr, OnOk};
ghost use Rattle.cb_heap.specs.Grants.{words_granted};

use crate::limits::{one_reaches, words_asked};
use crate::object::{HALF, place_of, write};
use cb_frames::Roots;
use cb_heap::{NoRoom, Store};
use cb_plain::{OutOfMemory, Request, Shapes};
use std::alloc::{AllocError, Global};
use std::marker::Model;

// Words are counted as far as this.
const MOST_WORDS: u64 = 1 << 40;

// Serials stay below 2^63: there are fewer objects than this.
const MOST_OBJECTS: u64 = (1 << 63) - 1;

/// A store that never lets an object go. The place of an object is its serial. Contracts see it as the shapes of each kind, the list of
/// its objects, and the room that is left of what was asked for.
#[derive(Drop)]
pub struct MapHeap {
    shapes: Shapes,
    starts: Vec<usize>,
    words: Vec<u64>,
    granted: Request,
}

impl Model for MapHeap {
    ghost use Rattle.std.specs.Prelude.{length};
    ghost use Rattle.std.specs.Vec.{vec_capacity};
    ghost use Rattle.cb_mapheap.specs.Layout.{IsStore};
    ghost use Rattle.cb_mapheap.specs.Placed.{Placed};
    ghost use Rattle.cb_mapheap.specs.Words.{objects_in};

    ghost Value = { Placed };

    ghost view = { λ heap. record { shapes = heap.shapes; objects = objects_in heap.shapes (length heap.starts.items) heap.words.items; granted = heap.granted } };

    ghost invariant = { λ heap. IsStore heap.shapes heap.starts.items heap.words.items heap.granted (vec_capacity heap.starts) (vec_capacity heap.words) };
}

impl MapHeap {
    /// A store without objects, of kinds with these shapes. It takes memory from `alloc` as room is made.
    pub fn make(alloc: Global, shapes: Shapes) -> MapHeap
        ensures { result ≡ record { shapes = shapes; objects = []; granted = [] } }
    {
        MapHeap {
            shapes,
            starts: Vec::new(alloc),
            words: Vec::new(alloc),
            granted: Request::new(),
        }
    }

    /// Takes memory for what is asked for, and grants it in place of what was granted. `OutOfMemory` changes nothing.
    fn grant(&mut self, request: &Request) -> Result<(), OutOfMemory>
        ensures objects { self.new.objects ≡ self.old.objects }
        ensures ok { OnOk result (self.new ≡ record { shapes = self.old.shapes; objects = self.old.objects; granted = request.now }) }
        ensures serials { OnOk result (length self.old.objects + 1 + words_granted request.now / 3 < 2 ^ 63) }
        ensures err { OnErr result (self.new ≡ self.old) }
    {
        let Some(words) = words_asked(request) else {
            return Err(AllocError);
        };
        let objects = words / 3;
        if (self.starts.len() as u64).saturating_add(objects) >= MOST_OBJECTS {
            return Err(AllocError);
        }
        self.words.reserve(words as usize)?;
        self.starts.reserve(objects as usize)?;
        self.granted.copy_from(request);
        Ok(())
    }
}

/// A place is a serial, each pair of sites is allowed, and nothing ever goes.
impl Store for MapHeap {
    ghost use Rattle.std.specs.Prelude.{map, pred, refl, true, false, Some};
    ghost use Rattle.cb_mapheap.specs.Room.{rules_are_bounded, rules_of};

    ghost Facts = { Unit {0} };

    ghost rules = { rules_of };

    ghost storage = { λ heap. record {
      kept = map Some heap.objects;
      index = pred;
      facts = tt;
      granted = heap.granted;
      faults = 0;
      settings = record { shapes = heap.shapes; knows = λ site. true; allows = λ one other. true };
    } };

    ghost FIXED = { false };

    const FIXED: bool = false;

    ghost tells_fixed = { refl };

    ghost bounded = { rules_are_bounded };

    /// Takes memory for what is asked for. `Full` where an entry has reached 2^40 words, and want of memory too where there would be 2^63
    /// objects. Takes time in the number of sites, and in that of all words where they move.
    fn make_room(&mut self, request: &Request, roots: &mut Roots) -> Result<(), NoRoom> {
        let _roots = roots;
        if one_reaches(request, MOST_WORDS) {
            return Err(NoRoom::Full {
                live: self.words.len() as u64,
                asked: MOST_WORDS,
                limit: MOST_WORDS - 1,
            });
        }
        self.grant(request).map_err(|_| NoRoom::OutOfMemory)
    }

    /// Does nothing.
    fn collect_all(&mut self, roots: &mut Roots) -> Result<(), NoRoom> {
        let _roots = roots;
        Ok(())
    }

    /// Takes time in the words of the object, and in the number of sites that room was made for.
    fn place(&mut self, site: u32, kind: u32, size: u32) -> u64 {
        let start = self.words.len();
        let serial = self.starts.len() as u64 + 1;
        write(&mut self.words, serial, site, kind, size);
        self.starts.push_reserved(start);
        self.granted.spend(site, 3 + size as u64);
        serial
    }

    fn kind(&self, at: u64) -> u32 {
        (self.words[place_of(&self.starts, at, 0)] % HALF) as u32
    }

    fn length(&self, at: u64) -> u32 {
        (self.words[place_of(&self.starts, at, 0)] / HALF) as u32
    }

    fn site(&self, at: u64) -> u32 {
        self.words[place_of(&self.starts, at, 2)] as u32
    }

    /// A place is a serial here, so the place itself would do as well.
    fn serial(&self, at: u64) -> u64 {
        self.words[place_of(&self.starts, at, 1)]
    }

    fn get(&self, at: u64, i: u32) -> u64 {
        self.words[place_of(&self.starts, at, 3 + i as usize)]
    }

    fn put(&mut self, at: u64, i: u32, word: u64) {
        let place = place_of(&self.starts, at, 3 + i as usize);
        self.words[place] = word;
    }

    fn get_ref(&self, at: u64, i: u32) -> u64 {
        self.words[place_of(&self.starts, at, 3 + i as usize)]
    }

    fn put_ref(&mut self, at: u64, i: u32, to: u64) {
        let place = place_of(&self.starts, at, 3 + i as usize);
        self.words[place] = to;
    }
}
