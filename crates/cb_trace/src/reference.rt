// One reference.
ghost use Rattle.std.specs.Prelude.{◌≡◌, ◌<◌, ◌≤◌, ◌^◌, length};
ghost use Rattle.cb_partheap.specs.Headers.{IsHeader};
ghost use Rattle.cb_partheap.specs.Spots.{Spot};
ghost use Rattle.cb_trace.specs.Marking.{IsLookedUp, MayBeLookedUp};

use cb_blocks::Blocks;
use cb_partheap::{MarkStack, mark_at, part_at, set_mark_at};
use cb_plain::Set;

/// Marks the object to which a reference leads, and lets it wait, where it lies in a part of the set and isn't marked.
pub(crate) fn mark_reference(words: &mut Blocks, grey: &mut MarkStack, set: &Set, to: u64)
    requires found { 0 < to → MayBeLookedUp words.old grey.old to }
    requires parts { length set.now ≡ length words.old.words }
    requires few { length words.old.words ≤ 2 ^ 12 }
    ensures null { to ≡ 0 → (words.new ≡ words.old) × (grey.new ≡ grey.old) }
    ensures found { (spot : Spot) → IsHeader words.old to spot → IsLookedUp set.now words.old words.new grey.old grey.new to spot }
{
    if to == 0 || !set.has(part_at(to)) || mark_at(words, to) != 0 {
        return;
    }
    set_mark_at(words, to, 1);
    grey.push(to);
}
