// The store that a collector is.
use crate::Collector;
use crate::heaps::{part_for, whole};
use crate::learn::learn_placed;
use cb_frames::Roots;
use cb_heap::{NoRoom, Store};
use cb_io::Sink;
use cb_plain::Request;

/// Where there is no room, all parts are collected. What is asked for is refused exactly where there is none then.
impl<K: Sink> Store for Collector<K> {
    ghost use Rattle.std.specs.Prelude.{refl, true};
    ghost use Rattle.cb_partheap.specs.Heaps.{index_in, objects_in, settings_in};
    ghost use Rattle.cb_collector.specs.Held.{known_in};
    ghost use Rattle.cb_collector.specs.Known.{Known};
    ghost use Rattle.cb_collector.specs.Policy.{rules_are_bounded, rules_of};

    ghost Facts = { Known };

    ghost rules = { rules_of };

    ghost storage = { λ store. record {
      kept = objects_in store.heap;
      index = index_in store.heap;
      facts = known_in K.taken store;
      granted = store.heap.granted;
      faults = K.faults store.output;
      settings = settings_in store.heap;
    } };

    ghost FIXED = { true };

    const FIXED: bool = true;

    ghost tells_fixed = { refl };

    ghost bounded = { rules_are_bounded };

    /// Grants room where there is so much. Where there isn't, all parts are collected if anything is used in one, and room is granted if there is so much
    /// then. `Full` exactly where there is none then either.
    fn make_room(&mut self, request: &Request, roots: &mut Roots) -> Result<(), NoRoom> {
        self.count_step();
        if self.grant(request) {
            return Ok(());
        }
        if self.live() == 0 {
            return Err(self.full(request));
        }
        self.take_all(roots);
        if self.grant(request) {
            return Ok(());
        }
        Err(self.full(request))
    }

    /// Collects all parts.
    fn collect_all(&mut self, roots: &mut Roots) -> Result<(), NoRoom> {
        self.take_all(roots);
        Ok(())
    }

    fn place(&mut self, site: u32, kind: u32, size: u32) -> u64 {
        whole(&self.heap);
        let part = part_for(&self.heap, site);
        learn_placed(&mut self.facts, part, 3 + size as u64);
        let at = self.heap.place(site, kind, size);
        whole(&self.heap);
        at
    }

    fn kind(&self, at: u64) -> u32 {
        self.heap().kind(at)
    }

    fn length(&self, at: u64) -> u32 {
        self.heap().length(at)
    }

    fn site(&self, at: u64) -> u32 {
        self.heap().site(at)
    }

    fn serial(&self, at: u64) -> u64 {
        self.heap().serial(at)
    }

    fn get(&self, at: u64, i: u32) -> u64 {
        self.heap().get(at, i)
    }

    fn put(&mut self, at: u64, i: u32, word: u64) {
        whole(&self.heap);
        self.heap.put(at, i, word);
    }

    fn get_ref(&self, at: u64, i: u32) -> u64 {
        self.heap().get_ref(at, i)
    }

    fn put_ref(&mut self, at: u64, i: u32, to: u64) {
        whole(&self.heap);
        self.heap.put_ref(at, i, to);
    }
}
