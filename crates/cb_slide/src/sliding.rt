// Sliding.
ghost use Rattle.std.specs.Prelude.{◌≡◌, ◌+◌, ◌*◌, ◌≤◌, false, ℕ, length};
ghost use Rattle.cb_frames.specs.Entries.{entries};
ghost use Rattle.cb_dag.specs.Marks.{marked};
ghost use Rattle.cb_heap.specs.Closed.{Collects, IsClosed};
ghost use Rattle.cb_heap.specs.Kept.{keep};
ghost use Rattle.cb_heap.specs.Reading.{read_roots, seen};
ghost use Rattle.cb_blocks.specs.Rows.{row};
ghost use Rattle.cb_partheap.specs.Heaps.{index_in, objects_in, settings_in};
ghost use Rattle.cb_partheap.specs.Marks.{IsClosedSet, IsUnmarked, MarksReached, staying};
ghost use Rattle.cb_heap.specs.Taking.{IsTaken};
ghost use Rattle.cb_partheap.specs.MarkLaws.{sites_of, words_in_set};
ghost use Rattle.cb_partheap.specs.Spots.{IsSpot, Spot};
ghost use Rattle.cb_slide.specs.Sliding.{HasOtherWords, IsLeft};

use crate::forwarding::forward;
use crate::moving::compact;
use crate::references::{rewrite_roots, rewrite_set};
use cb_frames::Roots;
use cb_partheap::PartHeap;
use cb_plain::{Set, Steps};
use std::sync::ledger::Ledger;

/// Removes the objects of a set of parts that aren't marked, where just those are that are reached, and moves the others to the front of their part, in
/// their order. Roots and objects read as before but for what went, and no object is marked. It gives the blocks that are free then back, writes no word
/// outside the set, and takes no memory. Takes time in the roots and in the words of the set. A step is one root, one word of the set that is looked at
/// for what it holds, or one word that is moved.
pub fn slide<L: Ledger>(heap: &mut PartHeap, roots: &mut Roots, set: &Set, steps: &mut Steps<L>)
    requires set { IsClosedSet heap.old set.now }
    requires closed { IsClosed (seen (index_in heap.old) (objects_in heap.old) roots.old.roots) }
    requires marked { MarksReached set.now (seen (index_in heap.old) (objects_in heap.old) roots.old.roots) heap.old }
    ensures collects { Collects (seen (index_in heap.old) (objects_in heap.old) roots.old.roots) (seen (index_in heap.new) (objects_in heap.new) roots.new.roots) }
    ensures taken { IsTaken (sites_of heap.old set.now) (seen (index_in heap.old) (objects_in heap.old) roots.old.roots) (staying set.now heap.old) }
    ensures objects { objects_in heap.new ≡ keep (staying set.now heap.old) (objects_in heap.old) }
    ensures roots { read_roots (index_in heap.new) roots.new.roots ≡ read_roots (index_in heap.old) roots.old.roots }
    ensures unmarked { IsUnmarked heap.new }
    ensures outside { (part : ℕ) → marked set.now part ≡ false → row heap.new.memory.words part ≡ row heap.old.memory.words part }
    ensures places { (spot : Spot) → IsSpot heap.old.memory spot → marked set.now spot.part ≡ false → IsLeft heap.old heap.new spot }
    ensures rest { HasOtherWords heap.old heap.new }
    ensures next { heap.new.next ≡ heap.old.next }
    ensures granted { heap.new.granted ≡ heap.old.granted }
    ensures settings { settings_in heap.new ≡ settings_in heap.old }
    ensures limit { roots.new.limit ≡ roots.old.limit }
    ensures steps { steps.new ≤ steps.old + length (entries roots.old.roots) + 2 * words_in_set heap.old set.now (objects_in heap.old) }
{
    forward(&mut heap.words, &heap.shapes, set);
    rewrite_roots(&heap.words, roots, set, steps);
    rewrite_set(&mut heap.words, &heap.shapes, set, steps);
    compact(&mut heap.words, &heap.shapes, set, steps);
}
