// Marked objects to the front of their parts.
ghost use Rattle.std.specs.Prelude.{◌≡◌, ◌<◌, ◌≤◌, ◌+◌, ◌^◌, ℕ, length};
ghost use Rattle.cb_blocks.specs.Rows.{row};
ghost use Rattle.cb_blocks.specs.Parted.{Parted, with_words};
ghost use Rattle.cb_raw.specs.Words.{copied};
ghost use Rattle.cb_slide.specs.Sliding.{EndsAt, Given, IsIn, IsRewritten, SlidTo, words_before};

use crate::first::first_place;
use cb_blocks::Blocks;
use cb_partheap::{mark_at, move_placed, object_words, place_past, set_mark_at};
use cb_plain::{Set, Shapes, Steps};
use std::sync::ledger::Ledger;

/// Moves the marked objects of a set of parts to the front, without their marks, and gives back the blocks behind them.
pub(crate) fn compact<L: Ledger>(
    words: &mut Blocks,
    shapes: &Shapes,
    set: &Set,
    steps: &mut Steps<L>,
)
    requires { (given : Given) × IsRewritten given words.old × (set.now ≡ given.set) }
    ensures { (given : Given) → IsRewritten given words.old → set.now ≡ given.set → SlidTo given words.old words.new (length set.now) × (steps.new ≤ steps.old + words_before given (length set.now)) }
{
    let _sound = words.blocks_free();
    for part in 0..set.parts() {
        if set.has(part) {
            compact_part(words, shapes, part, steps);
        }
    }
}

// The same in one part. Those that stand one behind the other are moved together.
fn compact_part<L: Ledger>(words: &mut Blocks, shapes: &Shapes, part: u32, steps: &mut Steps<L>)
    requires { (given : Given) × (before : Parted) × SlidTo given before words.old part × IsIn given part }
    ensures { (given : Given) → (before : Parted) → SlidTo given before words.old part → IsIn given part →
        SlidTo given before words.new (part + 1) × (steps.new ≤ steps.old + length (row given.heap.memory.words part)) }
{
    let end = words.used(part);
    let mut free = 0;
    let mut first = 0;
    let mut scan = 0;
    let mut at = first_place(words, part, end);
    let mut size = 0;
    let mut gap = (at, 0);
    let mut last = (at, 0);
    while scan < end {
        at = place_past(words, part, scan, at, size);
        size = object_words(words, shapes, at);
        if mark_at(words, at) != 0 {
            set_mark_at(words, at, 0);
        } else {
            last = move_run(words, part, first, free, scan - first, gap, last, steps);
            free += scan - first;
            first = scan + size;
            gap = (at, size);
        }
        scan += size;
    }
    let _last = move_run(words, part, first, free, scan - first, gap, last, steps);
    words.shrink(part, free + (scan - first));
    let _sound = words.blocks_free();
}

// Moves so many words of a part, each of which is counted, where they don't stand there already. It is told the place and the size of what lies before the first word, and of
// what lies before its target, and gives that of what lies behind the last target then.
#[inline(always)]
fn move_run<L: Ledger>(
    words: &mut Blocks,
    part: u32,
    from: u64,
    to: u64,
    count: u64,
    gap: (u64, u64),
    last: (u64, u64),
    steps: &mut Steps<L>,
) -> (u64, u64)
    requires part { part < length words.old.words }
    requires few { part < 2 ^ 12 }
    requires order { to ≤ from }
    requires inside { from + count ≤ length (row words.old.words part) }
    requires source { EndsAt words.old.rows part from gap.0 gap.1 }
    requires target { EndsAt words.old.rows part to last.0 last.1 }
    ensures words { words.new ≡ with_words words.old part (copied (row words.old.words part) from to count) }
    ensures behind { EndsAt words.new.rows part (to + count) result.0 result.1 }
    ensures counted { steps.new ≤ steps.old + count }
{
    let _sound = words.blocks_free();
    if count == 0 {
        return last;
    }
    let target = place_past(words, part, to, last.0, last.1);
    if to != from {
        let source = place_past(words, part, from, gap.0, gap.1);
        for _word in 0..count {
            steps.tick();
        }
        move_placed(words, part, from, to, count, (source, target));
    }
    (target, count)
}
