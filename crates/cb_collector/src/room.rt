// Room in a store that collects.
ghost use Rattle.std.specs.Prelude.{◌≡◌, ◌<◌, true, false, Ok, length, IsTrue};
ghost use Rattle.std.specs.List.{AllByRecursion};
ghost use Rattle.cb_heap.specs.Closed.{Collects, IsClosed};
ghost use Rattle.cb_heap.specs.Grants.{IsBounded};
ghost use Rattle.cb_heap.specs.Occupancy.{HasRoom, blocks};
ghost use Rattle.cb_partheap.specs.Heaps.{index_in, objects_in, part_of, settings_in};
ghost use Rattle.cb_slide.specs.Collected.{view_of};
ghost use Rattle.cb_collector.specs.Held.{IsReady, counted_for, full_by, granted_to, standing_in, used_by};
ghost use Rattle.cb_collector.specs.Policy.{TakesAll};

use crate::Collector;
use crate::heaps::with_step;
use crate::sweep::sweep_uncounted;
use crate::tally::one_more;
use cb_frames::Roots;
use cb_heap::NoRoom;
use cb_io::Sink;
use cb_partheap::PartHeap;
use cb_plain::Request;
use std::marker::Brand;
use std::sync::ledger::Blank;

impl<K: Sink> Collector<K> {
    /// Its objects.
    #[inline]
    pub(crate) fn heap(&self) -> &PartHeap
        ensures { result.now ≡ self.now.heap }
    {
        &self.heap
    }

    /// Counts a step that asks for room. What is asked for before any object was placed is the start's.
    pub(crate) fn count_step(&mut self)
        ensures { self.new ≡ counted_for (objects_in self.old.heap) self.old }
    {
        self.asked = with_step(&self.heap, self.asked);
    }

    /// Grants what is asked for, exactly where there is room for it.
    pub(crate) fn grant(&mut self, request: &Request) -> bool
        requires { AllByRecursion (λ want. IsTrue ((settings_in self.old.heap).knows want.site)) request.now }
        ensures granted { result ≡ true → self.new ≡ granted_to request.now self.old }
        ensures refused { result ≡ false → self.new ≡ self.old }
        ensures kept { objects_in self.new.heap ≡ objects_in self.old.heap }
        ensures places { index_in self.new.heap ≡ index_in self.old.heap }
        ensures room { result ≡ true → HasRoom (length self.old.heap.memory.words) (part_of self.old.heap.site_parts) (objects_in self.old.heap) request.now self.old.heap.memory.blocks }
        ensures none { result ≡ false → ¬ HasRoom (length self.old.heap.memory.words) (part_of self.old.heap.site_parts) (objects_in self.old.heap) request.now self.old.heap.memory.blocks }
        ensures bounded { result ≡ true → IsBounded true (length (objects_in self.new.heap)) request.now }
    {
        match self.heap.grant(request) {
            Ok(()) => true,
            Err(_) => false,
        }
    }

    /// How many blocks the objects take.
    pub(crate) fn live(&self) -> u32
        ensures live { result ≡ blocks (length self.now.heap.memory.words) (used_by self.now.heap) }
        ensures ready { IsReady self.now }
    {
        self.blocks - self.heap.blocks_free()
    }

    /// That there is no room for what is asked for.
    pub(crate) fn full(&self, request: &Request) -> NoRoom
        requires { AllByRecursion (λ want. IsTrue ((settings_in self.now.heap).knows want.site)) request.now }
        ensures { result ≡ full_by self.now.heap request.now }
    {
        let asked = self.heap.blocks_asked(request).min(u64::MAX as u128);
        NoRoom::Full {
            live: self.live() as u64,
            asked: asked as u64,
            limit: self.blocks as u64,
        }
    }

    /// Removes all objects that nothing reaches, as a collection of all parts.
    pub(crate) fn take_all(&mut self, roots: &mut Roots)
        requires { IsClosed (view_of self.old.heap roots.old.roots) }
        ensures takes { TakesAll (standing_in K.taken self.old roots.old.roots) (Ok tt) (standing_in K.taken self.new roots.new.roots) }
        ensures kept { Collects (view_of self.old.heap roots.old.roots) (view_of self.new.heap roots.new.roots) }
        ensures granted { self.new.heap.granted ≡ self.old.heap.granted }
        ensures settings { settings_in self.new.heap ≡ settings_in self.old.heap }
        ensures output { self.new.output ≡ self.old.output }
        ensures limit { roots.new.limit ≡ roots.old.limit }
    {
        let swept = sweep_uncounted::<Brand>(
            &mut self.heap,
            &mut self.facts,
            roots,
            &self.all,
            Blank::new(1),
        );
        self.collections = one_more(self.collections);
        self.tally.count(false, swept.visited, swept.freed);
    }
}
