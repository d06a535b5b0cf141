// One collection of a set of parts.
ghost use Rattle.std.specs.Prelude.{ℕ, ◌≡◌, ◌+◌, ◌*◌, ◌-◌, ◌<◌, ◌≤◌, false, length};
ghost use Rattle.cb_frames.specs.Entries.{entries};
ghost use Rattle.cb_heap.specs.Closed.{IsClosed};
ghost use Rattle.cb_heap.specs.Reading.{seen};
ghost use Rattle.cb_dag.specs.Marks.{marked};
ghost use Rattle.cb_blocks.specs.Rows.{row};
ghost use Rattle.cb_partheap.specs.Heaps.{index_in, objects_in, settings_in};
ghost use Rattle.cb_partheap.specs.MarkLaws.{words_in_set};
ghost use Rattle.cb_partheap.specs.Marks.{IsClosedSet, IsUnmarked};
ghost use Rattle.cb_partheap.specs.Spots.{IsSpot, Spot};
ghost use Rattle.cb_slide.specs.Collected.{IsCollected};
ghost use Rattle.cb_slide.specs.Sliding.{HasOtherWords, IsLeft};
ghost use Rattle.cb_collector.specs.Collecting.{facts_behind, words_in};
ghost use Rattle.cb_collector.specs.Held.{KnowsParts, used_by};

use crate::learn::{learn, words_gone, words_there};
use cb_frames::Roots;
use cb_partheap::{PartHeap, marks_take};
use cb_plain::{Facts, List, Set, Steps};
use cb_slide::{both_collect, slide};
use cb_trace::mark;
use std::sync::ledger::{Blank, Ledger};

/// How many words of the objects of a set stayed, and how many went.
#[derive(Clone, Copy, Debug, Drop)]
pub(crate) struct Swept {
    pub(crate) visited: u128,
    pub(crate) freed: u128,
}

/// Removes exactly the objects of a closed set of parts that nothing reaches, and learns what there is to know of each part. It changes nothing of other
/// parts, and takes no memory.
pub(crate) fn sweep<L: Ledger>(
    heap: &mut PartHeap,
    facts: &mut List<Facts>,
    roots: &mut Roots,
    set: &Set,
    steps: &mut Steps<L>,
) -> Swept
    requires set { IsClosedSet heap.old set.now }
    requires closed { IsClosed (seen (index_in heap.old) (objects_in heap.old) roots.old.roots) }
    requires unmarked { IsUnmarked heap.old }
    requires knows { KnowsParts heap.old facts.old }
    ensures collected { IsCollected set.now heap.old heap.new roots.old.roots roots.new.roots }
    ensures facts { facts.new ≡ facts_behind set.now (used_by heap.new) facts.old }
    ensures visited { result.visited ≡ words_in (length heap.old.memory.words) set.now (used_by heap.new) }
    ensures freed { result.freed ≡ words_in (length heap.old.memory.words) set.now (λ part. used_by heap.old part - used_by heap.new part) }
    ensures knows { KnowsParts heap.new facts.new }
    ensures unmarked { IsUnmarked heap.new }
    ensures outside { (part : ℕ) → marked set.now part ≡ false → row heap.new.memory.words part ≡ row heap.old.memory.words part }
    ensures places { (spot : Spot) → IsSpot heap.old.memory spot → marked set.now spot.part ≡ false → IsLeft heap.old heap.new spot }
    ensures rest { HasOtherWords heap.old heap.new }
    ensures granted { heap.new.granted ≡ heap.old.granted }
    ensures settings { settings_in heap.new ≡ settings_in heap.old }
    ensures limit { roots.new.limit ≡ roots.old.limit }
    ensures steps { steps.new ≤ steps.old + 2 * length (entries roots.old.roots) + words_in_set heap.old set.now (objects_in heap.new) + 2 * words_in_set heap.old set.now (objects_in heap.old) }
{
    heap.is_whole();
    mark(heap, roots, set, steps);
    let _heap = &heap.words;
    slide(heap, roots, set, steps);
    heap.is_whole();
    both_collect();
    marks_take();
    let visited = words_there(&heap.words, set);
    let freed = words_gone(facts, &heap.words, set);
    learn(facts, &heap.words, set);
    Swept { visited, freed }
}

/// The same, with a counter of its own.
pub(crate) fn sweep_uncounted<L: Ledger>(
    heap: &mut PartHeap,
    facts: &mut List<Facts>,
    roots: &mut Roots,
    set: &Set,
    blank: Blank,
) -> Swept
    requires name { blank.name ≡ L.name }
    requires parts { blank.parts ≡ L.parts }
    requires some { 0 < blank.parts }
    requires set { IsClosedSet heap.old set.now }
    requires closed { IsClosed (seen (index_in heap.old) (objects_in heap.old) roots.old.roots) }
    requires unmarked { IsUnmarked heap.old }
    requires knows { KnowsParts heap.old facts.old }
    ensures collected { IsCollected set.now heap.old heap.new roots.old.roots roots.new.roots }
    ensures facts { facts.new ≡ facts_behind set.now (used_by heap.new) facts.old }
    ensures visited { result.visited ≡ words_in (length heap.old.memory.words) set.now (used_by heap.new) }
    ensures freed { result.freed ≡ words_in (length heap.old.memory.words) set.now (λ part. used_by heap.old part - used_by heap.new part) }
    ensures knows { KnowsParts heap.new facts.new }
    ensures unmarked { IsUnmarked heap.new }
    ensures rest { HasOtherWords heap.old heap.new }
    ensures granted { heap.new.granted ≡ heap.old.granted }
    ensures settings { settings_in heap.new ≡ settings_in heap.old }
    ensures limit { roots.new.limit ≡ roots.old.limit }
{
    let mut steps = Steps::<L>::from_blank(blank);
    sweep(heap, facts, roots, set, &mut steps)
}
