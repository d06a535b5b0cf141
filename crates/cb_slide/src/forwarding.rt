// The places that marked objects will have, in place of their marks.
ghost use Rattle.std.specs.Prelude.{◌≡◌, ◌<◌, ◌+◌, ◌^◌, ◌≤◌, ℕ, length};
ghost use Rattle.cb_slide.specs.Sliding.{ForwardedTo, Given, IsIn};

use crate::first::first_place;
use cb_blocks::Blocks;
use cb_partheap::{mark_at, object_words, place_past, set_mark_at};
use cb_plain::{Set, Shapes};

/// Gives each marked object of a set of parts its forwarding place.
pub(crate) fn forward(words: &mut Blocks, shapes: &Shapes, set: &Set)
    requires { (given : Given) × ForwardedTo given words.old 0 0 × (set.now ≡ given.set) }
    ensures { (given : Given) → ForwardedTo given words.old 0 0 → set.now ≡ given.set → ForwardedTo given words.new (length set.now) 0 }
{
    for part in 0..set.parts() {
        if set.has(part) {
            forward_part(words, shapes, part);
        }
    }
}

// The same in one part: each object will begin where the marked ones before it end.
fn forward_part(words: &mut Blocks, shapes: &Shapes, part: u32)
    requires { (given : Given) × ForwardedTo given words.old part 0 × IsIn given part }
    ensures { (given : Given) → ForwardedTo given words.old part 0 → IsIn given part → ForwardedTo given words.new (part + 1) 0 }
{
    let end = words.used(part);
    let mut free = 0;
    let mut scan = 0;
    let mut at = first_place(words, part, end);
    let mut size = 0;
    let mut to = at;
    let mut kept = 0;
    while scan < end {
        at = place_past(words, part, scan, at, size);
        size = object_words(words, shapes, at);
        if mark_at(words, at) != 0 {
            to = place_past(words, part, free, to, kept);
            set_mark_at(words, at, to);
            free += size;
            kept = size;
        }
        scan += size;
    }
}
