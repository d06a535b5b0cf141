// New objects at the ends of parts.
ghost use Rattle.std.specs.Prelude.{◌≡◌, ◌+◌, ◌<◌, ◌^◌, length};
ghost use Rattle.cb_plain.specs.State.{words_of};
ghost use Rattle.cb_blocks.specs.Parted.{IsParted, IsTooMuch};
ghost use Rattle.cb_blocks.specs.Rows.{row};
ghost use Rattle.cb_partheap.specs.Added.{IsAdded};
ghost use Rattle.cb_partheap.specs.Spots.{place_of};
ghost use Rattle.cb_partheap.specs.Words.{blank_words};

use crate::words::{HALF, SPAN};
use cb_blocks::Blocks;

/// What the header of a new object tells.
#[derive(Clone, Copy, Drop)]
pub(crate) struct Header {
    pub(crate) kind: u32,
    pub(crate) size: u32,
    pub(crate) serial: u64,
    pub(crate) site: u32,
}

/// Adds an object at the end of a part, where there is room for it, and gives its place. Takes time in its blocks.
#[inline]
pub(crate) fn add_object(words: &mut Blocks, part: u32, header: Header) -> u64
    requires part { part < length words.old.words }
    requires few { part < 2 ^ 12 }
    requires sound { IsParted words.old }
    requires room { IsTooMuch words.old part (words_of header.size) → ⊥ }
    ensures added { IsAdded words.old words.new part (blank_words header.kind header.size header.serial header.site) }
    ensures place { result ≡ place_of words.new (record { part = part; start = length (row words.old.words part) }) }
{
    let first = header.kind as u64 + header.size as u64 * HALF;
    let head = (first, header.serial, header.site as u64);
    let index = words.add(part, head, header.size);
    let _sound = words.blocks_free();
    part as u64 * SPAN + index + 1
}
