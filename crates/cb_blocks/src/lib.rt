//! The words of a heap's parts, in blocks of 256 words of one region.
//!
//! `Blocks` takes all its memory when it is made. It keeps the blocks of a part as a row of numbers (`PagedRows`), which lies in pages
//! from a stock, and the pages of a row the same way, down to rows of a fixed length (`FlatRows`). A stock (`Holdings`) says of each of
//! its numbers, as of each block, in which row it stands and where, so that no two stand in one place. The tables take 21 bytes a
//! block at the greatest sizes.
//!
//! No clause says that memory is to be had: that `Blocks::make` doesn't always give up is shown by tests alone.
#![tactic(auto)]

mod blocks;
mod flat_rows;
mod holdings;
mod paged_rows;
mod rows;

pub use blocks::{Blocks, NoBlocks};
