// A store of fixed size that collects.
ghost use Rattle.std.specs.Prelude.{ℕ, ◌≡◌, ◌+◌, ◌*◌, ◌≤◌, true, false, length, IfOk};
ghost use Rattle.cb_frames.specs.Entries.{entries};
ghost use Rattle.cb_heap.specs.Closed.{Collects, IsClosed};
ghost use Rattle.cb_dag.specs.Marks.{marked};
ghost use Rattle.cb_blocks.specs.Rows.{row};
ghost use Rattle.cb_partheap.specs.Heaps.{objects_in};
ghost use Rattle.cb_partheap.specs.MarkLaws.{words_in_set};
ghost use Rattle.cb_partheap.specs.Made.{IsMade};
ghost use Rattle.cb_partheap.specs.Marks.{IsClosedSet};
ghost use Rattle.cb_partheap.specs.Spots.{IsSpot, Spot};
ghost use Rattle.cb_slide.specs.Collected.{view_of};
ghost use Rattle.cb_slide.specs.Sliding.{HasOtherWords, IsLeft};
ghost use Rattle.cb_collector.specs.Collecting.{Collected};
ghost use Rattle.cb_collector.specs.Held.{IsNew, standing_in};

use crate::making::{all_parts, first_facts};
use crate::sweep::sweep;
use crate::tally::{Tally, one_more};
use cb_dag::Dag;
use cb_frames::Roots;
use cb_io::Sink;
use cb_partheap::{PartHeap, stay_unmarked};
use cb_plain::{Facts, List, OutOfMemory, Set, Steps};
use std::alloc::Global;
use std::marker::Model;
use std::sync::ledger::Ledger;

/// A store of fixed size, whose objects lie in the parts of a heap, and which removes objects that nothing reaches. Contracts see it as its heap, the graph of
/// its parts, and what it knows.
#[derive(Drop)]
pub struct Collector<K: Sink> {
    pub(crate) heap: PartHeap,
    pub(crate) graph: Dag,
    pub(crate) facts: List<Facts>,
    pub(crate) asked: u64,
    pub(crate) collections: u64,
    pub(crate) tally: Tally,
    pub(crate) output: K,
    // How many blocks there are, and the set of all parts.
    pub(crate) blocks: u32,
    pub(crate) all: Set,
}

impl<K: Sink> Model for Collector<K> {
    ghost use Rattle.cb_collector.specs.Held.{Held, IsCollecting};

    ghost Value = { Held K };

    ghost view = { λ store. record { heap = store.heap; graph = store.graph; facts = store.facts; asked = store.asked; collections = store.collections; tally = store.tally; output = store.output } };

    ghost invariant = { λ store. IsCollecting (record { heap = store.heap; graph = store.graph; facts = store.facts; asked = store.asked; collections = store.collections; tally = store.tally; output = store.output }) store.blocks store.all };
}

impl<K: Sink> Collector<K> {
    /// A store over a heap without objects, which was made with this graph, at the start of a run. It takes a few bytes a part, and no later call
    /// takes any. `OutOfMemory` where these were not to be had.
    pub fn make(
        alloc: Global,
        heap: PartHeap,
        graph: Dag,
        output: K,
    ) -> Result<Collector<K>, OutOfMemory>
    where
        K: Drop,
        requires { IsMade heap.shapes heap.site_parts graph heap.memory.blocks heap }
        ensures { IfOk result (IsNew heap graph output) }
    {
        stay_unmarked();
        let parts = graph.parts();
        let blocks = heap.blocks_free();
        let facts = first_facts(alloc, parts)?;
        let all = all_parts(alloc, parts)?;
        let tally = Tally {
            partials: 0,
            fulls: 0,
            visited: 0,
            freed: 0,
        };
        Ok(Collector {
            heap,
            graph,
            facts,
            asked: 0,
            collections: 0,
            tally,
            output,
            blocks,
            all,
        })
    }

    /// Removes exactly the objects of a closed set of parts that nothing reaches, as a collection of a set that was chosen, and reports nothing. No word
    /// and no place of another part is changed. It takes no memory. Takes time in the roots and in the words of the set. A step is one root, one word that
    /// is looked at for what it holds, or one that is moved.
    pub fn collect<L: Ledger>(&mut self, roots: &mut Roots, set: &Set, steps: &mut Steps<L>)
        requires set { IsClosedSet self.old.heap set.now }
        requires closed { IsClosed (view_of self.old.heap roots.old.roots) }
        ensures collected { (visited : ℕ) × (freed : ℕ) × Collected set.now true visited freed (standing_in K.taken self.old roots.old.roots) (standing_in K.taken self.new roots.new.roots) }
        ensures kept { Collects (view_of self.old.heap roots.old.roots) (view_of self.new.heap roots.new.roots) }
        ensures outside { (part : ℕ) → marked set.now part ≡ false → row self.new.heap.memory.words part ≡ row self.old.heap.memory.words part }
        ensures places { (spot : Spot) → IsSpot self.old.heap.memory spot → marked set.now spot.part ≡ false → IsLeft self.old.heap self.new.heap spot }
        ensures rest { HasOtherWords self.old.heap self.new.heap }
        ensures graph { self.new.graph ≡ self.old.graph }
        ensures output { self.new.output ≡ self.old.output }
        ensures limit { roots.new.limit ≡ roots.old.limit }
        ensures steps { steps.new ≤ steps.old + 2 * length (entries roots.old.roots) + words_in_set self.old.heap set.now (objects_in self.new.heap) + 2 * words_in_set self.old.heap set.now (objects_in self.old.heap) }
    {
        let swept = sweep(&mut self.heap, &mut self.facts, roots, set, steps);
        self.collections = one_more(self.collections);
        self.tally.count(true, swept.visited, swept.freed);
    }

    /// What the collections came to so far.
    pub fn tally(&self) -> Tally
        ensures { result ≡ self.now.tally }
    {
        self.tally
    }

    /// The heap and the output, as they stand.
    pub fn split(self) -> (PartHeap, K)
        ensures heap { result.0 ≡ self.heap }
        ensures output { result.1 ≡ self.output }
    {
        let Collector { heap, output, .. } = self;
        (heap, output)
    }
}
