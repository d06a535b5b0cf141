// The references of roots and of marked objects.
ghost use Rattle.std.specs.Prelude.{◌≡◌, ◌<◌, ◌≤◌, ◌+◌, ◌^◌, ℕ, length, map, cond, slice_get, slice_set, Some};
ghost use Rattle.cb_blocks.specs.Parted.{with_words};
ghost use Rattle.cb_frames.specs.Entries.{entries, without_references};
ghost use Rattle.cb_dag.specs.Marks.{marked};
ghost use Rattle.cb_blocks.specs.Rows.{row};
ghost use Rattle.cb_partheap.specs.Headers.{IsHeader, IsWord};
ghost use Rattle.cb_partheap.specs.Spots.{Spot, words_by};
ghost use Rattle.cb_partheap.specs.Words.{mark_at as mark_in};
ghost use Rattle.cb_slide.specs.Slid.{place_after};
ghost use Rattle.cb_slide.specs.Sliding.{Given, IsForwarded, IsIn, Rewrites, RewrittenTo, words_before};
ghost use Rattle.cb_plain.specs.State.{words_of};

use crate::first::first_place;
use cb_blocks::Blocks;
use cb_frames::Roots;
use cb_partheap::{
    holds, mark_at, may_hold, object_words, part_at, place_past, set_word_at, shape_at, word_at,
};
use cb_plain::{Set, Shapes, Steps};
use std::sync::ledger::Ledger;

// The place that an object will have.
fn new_place(words: &Blocks, set: &Set, at: u64) -> u64
    requires found { 0 < at → (spot : Spot) × IsHeader words.now at spot }
    requires parts { length set.now ≡ length words.now.words }
    requires few { length words.now.words ≤ 2 ^ 12 }
    ensures null { at ≡ 0 → result ≡ 0 }
    ensures found { (spot : Spot) → IsHeader words.now at spot → result ≡ cond (marked set.now spot.part) (mark_in (words_by words.now spot) spot.start) at }
{
    if at == 0 || !set.has(part_at(at)) {
        at
    } else {
        mark_at(words, at)
    }
}

/// Rewrites the references of the roots.
pub(crate) fn rewrite_roots<L: Ledger>(
    words: &Blocks,
    roots: &mut Roots,
    set: &Set,
    steps: &mut Steps<L>,
)
    requires { (given : Given) × IsForwarded given words.now × (roots.old.roots ≡ given.roots) × (set.now ≡ given.set) }
    ensures entries { (given : Given) → IsForwarded given words.now → roots.old.roots ≡ given.roots → set.now ≡ given.set → entries roots.new.roots ≡ map (place_after given.set given.heap.memory) (entries given.roots) }
    ensures rest { without_references roots.new.roots ≡ without_references roots.old.roots }
    ensures limit { roots.new.limit ≡ roots.old.limit }
    ensures counted { steps.new ≡ steps.old + length (entries roots.old.roots) }
{
    for i in 0..roots.reference_count() {
        steps.tick();
        let at = roots.reference(i);
        if at != 0 {
            roots.set_reference(i, new_place(words, set, at));
        }
    }
}

/// Rewrites the references of the marked objects of a set of parts.
pub(crate) fn rewrite_set<L: Ledger>(
    words: &mut Blocks,
    shapes: &Shapes,
    set: &Set,
    steps: &mut Steps<L>,
)
    requires { (given : Given) × RewrittenTo given words.old 0 0 × (set.now ≡ given.set) × (shapes.now ≡ given.heap.shapes) }
    ensures { (given : Given) → RewrittenTo given words.old 0 0 → set.now ≡ given.set → shapes.now ≡ given.heap.shapes →
        RewrittenTo given words.new (length set.now) 0 × (steps.new ≤ steps.old + words_before given (length set.now)) }
{
    for part in 0..set.parts() {
        if set.has(part) {
            rewrite_part(words, shapes, set, part, steps);
        }
    }
}

// The same in one part. The words of objects that aren't marked aren't looked at.
fn rewrite_part<L: Ledger>(
    words: &mut Blocks,
    shapes: &Shapes,
    set: &Set,
    part: u32,
    steps: &mut Steps<L>,
)
    requires { (given : Given) × RewrittenTo given words.old part 0 × IsIn given part × (set.now ≡ given.set) × (shapes.now ≡ given.heap.shapes) }
    ensures { (given : Given) → RewrittenTo given words.old part 0 → IsIn given part → set.now ≡ given.set → shapes.now ≡ given.heap.shapes →
        RewrittenTo given words.new (part + 1) 0 × (steps.new ≤ steps.old + length (row given.heap.memory.words part)) }
{
    let end = words.used(part);
    let mut scan = 0;
    let mut at = first_place(words, part, end);
    let mut size = 0;
    while scan < end {
        at = place_past(words, part, scan, at, size);
        size = object_words(words, shapes, at);
        steps.tick();
        steps.tick();
        steps.tick();
        if mark_at(words, at) != 0 {
            rewrite_object(words, shapes, set, at, size - 3, steps);
        }
        scan += size;
    }
}

// The same in one object. The words of an array of numbers aren't looked at.
fn rewrite_object<L: Ledger>(
    words: &mut Blocks,
    shapes: &Shapes,
    set: &Set,
    at: u64,
    size: u64,
    steps: &mut Steps<L>,
)
    requires { (given : Given) × (spot : Spot) × Rewrites given words.old shapes.now set.now at size spot }
    ensures written { (given : Given) → (spot : Spot) → Rewrites given words.old shapes.now set.now at size spot → RewrittenTo given words.new spot.part (spot.start + words_of size) }
    ensures counted { steps.new ≤ steps.old + size }
{
    let shape = shape_at(words, shapes, at);
    if !may_hold(shape) {
        return;
    }
    for i in 0..size {
        steps.tick();
        if holds(shape, i as u32) {
            let to = word_at(words, at, 3 + i);
            let word = new_place(words, set, to);
            put_place(words, at, 3 + i, to, word);
        }
    }
}

// Puts the place that an object will have into a word, where it is another than the one that is there.
fn put_place(words: &mut Blocks, at: u64, i: u64, old: u64, new: u64)
    requires there { (spot : Spot) × IsWord words.old at i spot }
    requires read { (spot : Spot) → IsWord words.old at i spot → slice_get (words_by words.old spot) (spot.start + i) ≡ Some old }
    ensures { (spot : Spot) → IsWord words.old at i spot → words.new ≡ with_words words.old spot.part (slice_set (words_by words.old spot) (spot.start + i) new) }
{
    if new != old {
        set_word_at(words, at, i, new);
    }
}
