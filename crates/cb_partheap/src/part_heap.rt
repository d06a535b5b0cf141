// The heap in parts.
ghost use Rattle.std.specs.Prelude.{[], true, ℕ, ◌≡◌, ◌+◌, ◌<◌, ◌≤◌, ◌^◌, ◌++◌, ◌∷◌, length, option_map, pos, ◌↔◌, IfOk, IsErr, IsTrue, OnErr, OnOk, Some};
ghost use Rattle.std.specs.Int.{int_wrap, w64};
ghost use Rattle.std.specs.List.{All, AllByRecursion, list_all};
ghost use Rattle.cb_plain.specs.Requests.{spent, words_at};
ghost use Rattle.cb_plain.specs.State.{Number, Reference, words_of};
ghost use Rattle.cb_plain.specs.Updates.{object_in};
ghost use Rattle.cb_heap.specs.Closed.{references_in};
ghost use Rattle.cb_heap.specs.Follows.{Follows};
ghost use Rattle.cb_heap.specs.Grants.{IsBounded};
ghost use Rattle.cb_heap.specs.Kept.{content_at, is_held, is_kept, is_number, is_reference, with_content};
ghost use Rattle.cb_heap.specs.Occupancy.{HasRoom, used};
ghost use Rattle.cb_heap.specs.Reading.{serial_of};
ghost use Rattle.cb_heap.specs.Shaped.{has_size, new_object};
ghost use Rattle.cb_heap.specs.Store.{ReadsAsBefore, may_point};
ghost use Rattle.cb_blocks.specs.Rows.{row};
ghost use Rattle.cb_partheap.specs.Added.{IsAdded};
ghost use Rattle.cb_partheap.specs.Heaps.{index_in, objects_in, part_of, settings_in, with_granted, with_object, with_word};
ghost use Rattle.cb_partheap.specs.Made.{IsMade};
ghost use Rattle.cb_partheap.specs.Marks.{IsUnmarked};
ghost use Rattle.cb_partheap.specs.Words.{blank_words};
ghost use Rattle.cb_partheap.specs.Spots.{IsSpot, Spot, place_of};

use crate::MarkStack;
use crate::add::{Header, add_object};
use crate::edge_grid::edge_grid;
use crate::room::blocks_more;
use crate::words::{HALF, SITES, set_word_at, word_at};
use cb_blocks::{Blocks, NoBlocks};
use cb_dag::{Dag, Grid};
use cb_plain::{Numbers, OutOfMemory, Request, Shapes};
use std::alloc::Global;
use std::marker::Model;

/// A heap of fixed size, whose objects lie in parts.
#[derive(Drop)]
pub struct PartHeap {
    /// The words of the objects, by part.
    pub words: Blocks,
    /// The shapes of objects, by kind.
    pub shapes: Shapes,
    /// The part of each site.
    pub site_parts: Numbers,
    /// The edges between parts along which references may lead.
    pub edges: Grid,
    /// The serial of the next object.
    pub next: u64,
    /// The room that is left of what was granted.
    pub granted: Request,
    /// The objects that marking has yet to look at.
    pub grey: MarkStack,
}

impl Model for PartHeap {
    ghost use Rattle.cb_partheap.specs.Heaps.{Heap};
    ghost use Rattle.cb_partheap.specs.Whole.{IsHeap};

    ghost Value = { Heap };

    ghost view = { λ heap. record { memory = heap.words; shapes = heap.shapes; site_parts = heap.site_parts; edges = heap.edges; next = heap.next; granted = heap.granted; grey = heap.grey } };

    ghost invariant = { λ heap. IsHeap (record { memory = heap.words; shapes = heap.shapes; site_parts = heap.site_parts; edges = heap.edges; next = heap.next; granted = heap.granted; grey = heap.grey }) };
}

impl PartHeap {
    /// A heap of so many blocks of 256 words without objects, for objects of kinds with these shapes, at sites that each lie in a part of a
    /// graph, along whose edges references may lead. The next serial is 1. It takes all memory that it will ever have: 2 KiB and some 21 bytes
    /// a block, 683 bytes a block for marking, and a bit for each two parts. `OutOfMemory` where that was not to be had.
    pub fn make(
        alloc: Global,
        shapes: Shapes,
        site_parts: Numbers,
        dag: &Dag,
        blocks: u32,
    ) -> Result<PartHeap, OutOfMemory>
        requires sites { length site_parts ≤ 2 ^ 14 }
        requires parts { All (λ part. part < dag.now.parts) site_parts }
        requires blocks { blocks ≤ 2 ^ 20 }
        ensures { IfOk result (IsMade shapes site_parts dag.now blocks) }
    {
        let words = Blocks::make(alloc, blocks, dag.parts())?;
        let _sound = words.blocks_free();
        let edges = edge_grid(alloc, dag)?;
        let grey = MarkStack::make(alloc, blocks as usize * 256 / 3)?;
        Ok(PartHeap {
            words,
            shapes,
            site_parts,
            edges,
            next: 1,
            granted: Request::new(),
            grey,
        })
    }

    /// Grants room for what is asked for in place of what was granted. `NoBlocks` exactly where there are too few blocks for it beside the
    /// objects, and then nothing has changed. Takes time in the square of the sites that are asked for, and no memory.
    pub fn grant(&mut self, request: &Request) -> Result<(), NoBlocks>
        requires { AllByRecursion (λ want. IsTrue ((settings_in self.old).knows want.site)) request.now }
        ensures granted { OnOk result (self.new ≡ with_granted self.old request.now) }
        ensures refused { OnErr result (self.new ≡ self.old) }
        ensures kept { objects_in self.new ≡ objects_in self.old }
        ensures places { index_in self.new ≡ index_in self.old }
        ensures room { IsErr result ↔ ¬ HasRoom (length self.old.memory.words) (part_of self.old.site_parts) (objects_in self.old) request.now self.old.memory.blocks }
        ensures bounded { OnOk result (IsBounded true (length (objects_in self.new)) request.now) }
        ensures unmarked { IsUnmarked self.old → IsUnmarked self.new }
    {
        let more = blocks_more(&self.words, &self.site_parts, request);
        if more > self.words.blocks_free() as u128 {
            return Err(NoBlocks);
        }
        self.granted.copy_from(request);
        Ok(())
    }

    /// Places an object of a kind at a site, with so many words of contents, each 0, where there is room that was granted. Its place is never 0.
    /// It isn't marked. Takes time in its blocks, and in the number of sites that room was granted for.
    pub fn place(&mut self, site: u32, kind: u32, size: u32) -> u64
        requires granted { words_of size ≤ words_at self.old.granted site }
        requires shaped { IsTrue (has_size self.old.shapes kind size) }
        requires serials { length (objects_in self.old) + 1 < 2 ^ 63 }
        ensures kept { objects_in self.new ≡ objects_in self.old ++ Some (new_object self.old.shapes site kind size) ∷ [] }
        ensures serial { serial_of (index_in self.new) result ≡ length (objects_in self.old) + 1 }
        ensures places { ReadsAsBefore (objects_in self.old) (index_in self.old) (index_in self.new) }
        ensures words { IsAdded self.old.memory self.new.memory (part_of self.old.site_parts site) (blank_words kind size self.old.next site) }
        ensures rest { self.new ≡ with_object self.old self.new.memory site size }
        ensures granted { self.new.granted ≡ spent self.old.granted site (words_of size) }
        ensures settings { settings_in self.new ≡ settings_in self.old }
        ensures unmarked { IsUnmarked self.old → IsUnmarked self.new }
    {
        let part = *self.site_parts.get(site as usize);
        let serial = self.next;
        let header = Header {
            kind,
            size,
            serial,
            site,
        };
        self.next += 1;
        self.granted.spend(site, 3 + size as u64);
        add_object(&mut self.words, part, header)
    }

    /// The kind of an object.
    pub fn kind(&self, at: u64) -> u32
        requires { IsTrue (is_kept (objects_in self.now) (serial_of (index_in self.now) at)) }
        ensures { option_map (λ object. object.kind) (object_in (objects_in self.now) (serial_of (index_in self.now) at)) ≡ Some result }
    {
        (word_at(&self.words, at, 0) % HALF) as u32
    }

    /// How many words of contents it has.
    pub fn length(&self, at: u64) -> u32
        requires { IsTrue (is_kept (objects_in self.now) (serial_of (index_in self.now) at)) }
        ensures { option_map (λ object. length object.contents) (object_in (objects_in self.now) (serial_of (index_in self.now) at)) ≡ Some result }
    {
        (word_at(&self.words, at, 0) / HALF) as u32
    }

    /// Its site.
    pub fn site(&self, at: u64) -> u32
        requires { IsTrue (is_kept (objects_in self.now) (serial_of (index_in self.now) at)) }
        ensures { option_map (λ object. object.site) (object_in (objects_in self.now) (serial_of (index_in self.now) at)) ≡ Some result }
    {
        (word_at(&self.words, at, 2) % SITES) as u32
    }

    /// Its serial, which is never 0 and stays the same wherever it lies.
    pub fn serial(&self, at: u64) -> u64
        requires { IsTrue (is_kept (objects_in self.now) (serial_of (index_in self.now) at)) }
        ensures { result ≡ serial_of (index_in self.now) at }
    {
        word_at(&self.words, at, 1)
    }

    /// A word of it that holds a number, in two's complement.
    pub fn get(&self, at: u64, i: u32) -> u64
        requires { IsTrue (is_number (content_at (objects_in self.now) (serial_of (index_in self.now) at) i)) }
        ensures { content_at (objects_in self.now) (serial_of (index_in self.now) at) i ≡ Some (Number (int_wrap w64 (pos result))) }
    {
        word_at(&self.words, at, 3 + i as u64)
    }

    /// A word of it that holds a reference: the place of an object, or 0.
    pub fn get_ref(&self, at: u64, i: u32) -> u64
        requires { IsTrue (is_reference (content_at (objects_in self.now) (serial_of (index_in self.now) at) i)) }
        ensures { content_at (objects_in self.now) (serial_of (index_in self.now) at) i ≡ Some (Reference (serial_of (index_in self.now) result)) }
    {
        word_at(&self.words, at, 3 + i as u64)
    }

    /// Puts another number, in two's complement, into a word that holds one, and changes no other word of the heap.
    pub fn put(&mut self, at: u64, i: u32, word: u64)
        requires { IsTrue (is_number (content_at (objects_in self.old) (serial_of (index_in self.old) at) i)) }
        ensures kept { objects_in self.new ≡ with_content (objects_in self.old) (serial_of (index_in self.old) at) i (Number (int_wrap w64 (pos word))) }
        ensures places { index_in self.new ≡ index_in self.old }
        ensures words { (spot : Spot) → IsSpot self.old.memory spot → place_of self.old.memory spot ≡ at → self.new ≡ with_word self.old spot i word }
        ensures granted { self.new.granted ≡ self.old.granted }
        ensures settings { settings_in self.new ≡ settings_in self.old }
        ensures unmarked { IsUnmarked self.old → IsUnmarked self.new }
    {
        set_word_at(&mut self.words, at, 3 + i as u64, word);
    }

    /// Puts another reference into a word that holds one, and changes no other word of the heap.
    pub fn put_ref(&mut self, at: u64, i: u32, to: u64)
        requires there { IsTrue (is_reference (content_at (objects_in self.old) (serial_of (index_in self.old) at) i)) }
        requires held { IsTrue (is_held (objects_in self.old) (serial_of (index_in self.old) to)) }
        requires allowed { IsTrue (may_point (settings_in self.old).allows (objects_in self.old) (serial_of (index_in self.old) at) (serial_of (index_in self.old) to)) }
        ensures kept { objects_in self.new ≡ with_content (objects_in self.old) (serial_of (index_in self.old) at) i (Reference (serial_of (index_in self.old) to)) }
        ensures places { index_in self.new ≡ index_in self.old }
        ensures words { (spot : Spot) → IsSpot self.old.memory spot → place_of self.old.memory spot ≡ at → self.new ≡ with_word self.old spot i to }
        ensures granted { self.new.granted ≡ self.old.granted }
        ensures settings { settings_in self.new ≡ settings_in self.old }
        ensures unmarked { IsUnmarked self.old → IsUnmarked self.new }
    {
        set_word_at(&mut self.words, at, 3 + i as u64, to);
    }

    /// How many parts there are.
    pub fn parts(&self) -> u32
        ensures { result ≡ length self.now.memory.words }
    {
        self.edges.nodes()
    }

    /// Says that references stay in their part or follow an edge, that no object that is kept names one that isn't, and that the words of each part are
    /// those of the objects that are kept in it. Does nothing.
    pub fn is_whole(&self)
        ensures closed { IsTrue (list_all (is_held (objects_in self.now)) (references_in (objects_in self.now))) }
        ensures follows { Follows (settings_in self.now).allows (objects_in self.now) }
        ensures used { (part : ℕ) → part < length self.now.memory.words → used (part_of self.now.site_parts) (objects_in self.now) part ≡ length (row self.now.memory.words part) }
    {
        let _words = &self.words;
    }
}
