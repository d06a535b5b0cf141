// What is read of a heap.
ghost use Rattle.std.specs.Prelude.{◌≡◌, ◌<◌, length};
ghost use Rattle.cb_partheap.specs.Heaps.{objects_in, part_of};
ghost use Rattle.cb_partheap.specs.Whole.{IsHeap};
ghost use Rattle.cb_collector.specs.Held.{asked_behind};

use crate::tally::one_more;
use cb_partheap::PartHeap;

/// Says what holds of every heap. Does nothing.
#[inline]
pub(crate) fn whole(heap: &PartHeap)
    ensures { IsHeap heap.now }
{
    let _words = &heap.words;
}

/// The part of a site.
#[inline]
pub(crate) fn part_for(heap: &PartHeap, site: u32) -> u32
    requires { site < length heap.now.site_parts }
    ensures { result ≡ part_of heap.now.site_parts site }
{
    *heap.site_parts.get(site as usize)
}

/// How many steps asked for room, with one more. What is asked for before any object was placed is the start's, which isn't counted.
pub(crate) fn with_step(heap: &PartHeap, asked: u64) -> u64
    ensures { result ≡ asked_behind (objects_in heap.now) asked }
{
    if heap.next == 1 {
        return asked;
    }
    one_more(asked)
}
