// Room in blocks.
ghost use Rattle.std.specs.Prelude.{◌≡◌, ◌+◌, ◌*◌, ◌<◌, ◌≤◌, ◌^◌, length, slice_index, take};
ghost use Rattle.std.specs.List.{All};
ghost use Rattle.cb_heap.specs.Occupancy.{wanted};
ghost use Rattle.cb_blocks.specs.Parted.{blocks_for, taken};
ghost use Rattle.cb_blocks.specs.Rows.{row};
ghost use Rattle.cb_partheap.specs.Heaps.{part_of};
ghost use Rattle.cb_partheap.specs.Whole.{blocks_of_all};

use cb_blocks::Blocks;
use cb_plain::{Numbers, Request};

/// How many blocks so many words need.
fn count_blocks(words: u128) -> u128
    requires { words < 2 ^ 127 }
    ensures { result ≡ blocks_for words }
{
    (words + 255) / 256
}

/// How many words the first so many entries ask for in a part.
fn asked_before(request: &Request, site_parts: &Numbers, count: u32, part: u32) -> u128
    requires within { count ≤ length request.now }
    requires known { All (λ want. want.site < length site_parts.now) request.now }
    ensures words { result ≡ wanted (part_of site_parts.now) (take count request.now) part }
    ensures bound { result ≤ count * 2 ^ 64 }
{
    let mut words = 0_u128;
    for i in 0..count {
        let want = request.at(i);
        if *site_parts.get(want.site as usize) == part {
            words += want.words as u128;
        }
    }
    words
}

/// How many blocks more than they have the parts need for what is asked for. Takes time in the square of the entries.
pub(crate) fn blocks_more(words: &Blocks, site_parts: &Numbers, request: &Request) -> u128
    requires known { All (λ want. want.site < length site_parts.now) request.now }
    requires within { All (λ part. part < length words.now.words) site_parts.now }
    ensures { result + taken words.now.words ≡ blocks_of_all words.now site_parts.now request.now }
{
    let mut more = 0_u128;
    for i in 0..request.len() {
        let want = request.at(i);
        let part = *site_parts.get(want.site as usize);
        let before = words.used(part) as u128 + asked_before(request, site_parts, i, part);
        more += count_blocks(before + want.words as u128) - count_blocks(before);
    }
    more
}
