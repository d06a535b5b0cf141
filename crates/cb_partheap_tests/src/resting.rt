// A store of fixed size that never lets an object go.
use cb_frames::Roots;
use cb_heap::{NoRoom, Store};
use cb_partheap::PartHeap;
use cb_plain::Request;

/// A store over a heap in parts that never lets an object go.
#[derive(Drop)]
pub struct Resting {
    /// Its objects.
    pub heap: PartHeap,
}

/// Its calls are those of the heap.
impl Store for Resting {
    ghost use Rattle.std.specs.Prelude.{refl, true};
    ghost use Rattle.cb_partheap.specs.Heaps.{index_in, objects_in, settings_in};
    ghost use Rattle.cb_partheap_tests.specs.Resting.{resting, resting_bounded};

    ghost Facts = { Unit {0} };

    ghost rules = { resting };

    ghost storage = { λ store. record {
      kept = objects_in store.heap;
      index = index_in store.heap;
      facts = tt;
      granted = store.heap.granted;
      faults = 0;
      settings = settings_in store.heap;
    } };

    ghost FIXED = { true };

    const FIXED: bool = true;

    ghost tells_fixed = { refl };

    ghost bounded = { resting_bounded };

    fn make_room(&mut self, request: &Request, roots: &mut Roots) -> Result<(), NoRoom> {
        let _roots = roots;
        match self.heap.grant(request) {
            Ok(()) => Ok(()),
            Err(_) => Err(NoRoom::Full {
                live: 0,
                asked: 0,
                limit: 0,
            }),
        }
    }

    fn collect_all(&mut self, roots: &mut Roots) -> Result<(), NoRoom> {
        let _roots = roots;
        Ok(())
    }

    fn place(&mut self, site: u32, kind: u32, size: u32) -> u64 {
        self.heap.place(site, kind, size)
    }

    fn kind(&self, at: u64) -> u32 {
        self.heap.kind(at)
    }

    fn length(&self, at: u64) -> u32 {
        self.heap.length(at)
    }

    fn site(&self, at: u64) -> u32 {
        self.heap.site(at)
    }

    fn serial(&self, at: u64) -> u64 {
        self.heap.serial(at)
    }

    fn get(&self, at: u64, i: u32) -> u64 {
        self.heap.get(at, i)
    }

    fn put(&mut self, at: u64, i: u32, word: u64) {
        self.heap.put(at, i, word);
    }

    fn get_ref(&self, at: u64, i: u32) -> u64 {
        self.heap.get_ref(at, i)
    }

    fn put_ref(&mut self, at: u64, i: u32, to: u64) {
        self.heap.put_ref(at, i, to);
    }
}
