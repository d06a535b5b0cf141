// Marking from the roots on.
ghost use Rattle.std.specs.Prelude.{ℕ, ◌≡◌, ◌+◌, ◌≤◌, false, length};
ghost use Rattle.cb_frames.specs.Entries.{entries};
ghost use Rattle.cb_heap.specs.Closed.{IsClosed};
ghost use Rattle.cb_heap.specs.Reading.{seen};
ghost use Rattle.cb_dag.specs.Marks.{marked};
ghost use Rattle.cb_blocks.specs.Rows.{row};
ghost use Rattle.cb_partheap.specs.Heaps.{index_in, objects_in, settings_in};
ghost use Rattle.cb_partheap.specs.Marks.{IsClosedSet, IsRemarked, IsUnmarked, MarksReached, words_marked};
ghost use Rattle.cb_trace.specs.Marking.{AllLooked, Begins, Ends, Given, Looks, LookedAt, StandsAt};

use crate::reference::mark_reference;
use cb_blocks::Blocks;
use cb_frames::Roots;
use cb_partheap::{MarkStack, PartHeap, holds, may_hold, object_words, shape_at, word_at};
use cb_plain::{Set, Shapes, Steps};
use std::sync::ledger::Ledger;

/// Marks exactly the objects of a set of parts that are reached from the roots, where the set has with each part those from which edges lead there, the
/// roots name no object that isn't kept, and none is marked. It writes no word but these marks, looks into no part outside the set, and takes no
/// memory. Takes time in the roots and in the words of what it marks, but for those of arrays of numbers. A step is one root or one word.
pub fn mark<L: Ledger>(heap: &mut PartHeap, roots: &Roots, set: &Set, steps: &mut Steps<L>)
    requires set { IsClosedSet heap.old set.now }
    requires closed { IsClosed (seen (index_in heap.old) (objects_in heap.old) roots.now.roots) }
    requires unmarked { IsUnmarked heap.old }
    ensures marked { MarksReached set.now (seen (index_in heap.old) (objects_in heap.old) roots.now.roots) heap.new }
    ensures rest { IsRemarked set.now heap.old heap.new }
    ensures outside { (part : ℕ) → marked set.now part ≡ false → row heap.new.memory.words part ≡ row heap.old.memory.words part }
    ensures kept { objects_in heap.new ≡ objects_in heap.old }
    ensures places { index_in heap.new ≡ index_in heap.old }
    ensures granted { heap.new.granted ≡ heap.old.granted }
    ensures settings { settings_in heap.new ≡ settings_in heap.old }
    ensures steps { steps.new ≤ steps.old + length (entries roots.now.roots) + words_marked heap.new }
{
    mark_roots(&mut heap.words, &mut heap.grey, roots, set, steps);
    mark_behind(&mut heap.words, &heap.shapes, &mut heap.grey, set, steps);
}

// Marks what roots refer to.
fn mark_roots<L: Ledger>(
    words: &mut Blocks,
    grey: &mut MarkStack,
    roots: &Roots,
    set: &Set,
    steps: &mut Steps<L>,
)
    requires { (given : Given) × Begins given words.old grey.old roots.now.roots set.now }
    ensures marked { (given : Given) → Begins given words.old grey.old roots.now.roots set.now → StandsAt given words.new grey.new set.now grey.new.places 0 × AllLooked given words.new (entries roots.now.roots) }
    ensures counted { steps.new ≡ steps.old + length (entries roots.now.roots) }
{
    for i in 0..roots.reference_count() {
        steps.tick();
        mark_reference(words, grey, set, roots.reference(i));
    }
}

// Marks what is behind the objects that wait, until none waits.
fn mark_behind<L: Ledger>(
    words: &mut Blocks,
    shapes: &Shapes,
    grey: &mut MarkStack,
    set: &Set,
    steps: &mut Steps<L>,
)
    requires { (given : Given) × StandsAt given words.old grey.old set.now grey.old.places 0 × (shapes.now ≡ given.heap.shapes) }
    ensures { (given : Given) → StandsAt given words.old grey.old set.now grey.old.places 0 → shapes.now ≡ given.heap.shapes → Ends given words.old words.new grey.new set.now steps.old steps.new }
{
    while let Some(at) = grey.pop() {
        mark_object(words, shapes, grey, set, at, steps);
    }
}

// Marks what one object refers to. The words of an array of numbers aren't looked at.
fn mark_object<L: Ledger>(
    words: &mut Blocks,
    shapes: &Shapes,
    grey: &mut MarkStack,
    set: &Set,
    at: u64,
    steps: &mut Steps<L>,
)
    requires { (given : Given) × (looked : ℕ) × Looks given words.old shapes.now grey.old set.now at looked }
    ensures { (given : Given) → (looked : ℕ) → Looks given words.old shapes.now grey.old set.now at looked → LookedAt given words.old words.new grey.new set.now at looked steps.old steps.new }
{
    steps.tick();
    steps.tick();
    steps.tick();
    let shape = shape_at(words, shapes, at);
    if !may_hold(shape) {
        return;
    }
    let size = (object_words(words, shapes, at) - 3) as u32;
    for i in 0..size {
        steps.tick();
        if holds(shape, i) {
            let to = word_at(words, at, 3 + i as u64);
            mark_reference(words, grey, set, to);
        }
    }
}
