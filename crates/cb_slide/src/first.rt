// Where the objects of a part begin.
ghost use Rattle.std.specs.Prelude.{◌≡◌, ◌<◌, ◌^◌, length};
ghost use Rattle.cb_blocks.specs.Rows.{row};
ghost use Rattle.cb_partheap.specs.Spots.{place_of};

use cb_blocks::Blocks;
use cb_partheap::place_at;

/// The place of the first object of a part that has so many words, or 0 where it has none.
pub(crate) fn first_place(words: &Blocks, part: u32, end: u64) -> u64
    requires part { part < length words.now.words }
    requires few { part < 2 ^ 12 }
    requires end { end ≡ length (row words.now.words part) }
    ensures { 0 < length (row words.now.rows part) → result ≡ place_of words.now (record { part = part; start = 0 }) }
{
    let _sound = words.blocks_free();
    if end == 0 {
        return 0;
    }
    place_at(words, part, 0)
}
