// Texts by their numbers.
ghost use Rattle.std.specs.Prelude.{◌≡◌, ◌<◌, ◌+◌, ◌^◌, ◌↔◌, [], length, slice_get, IfOk, IsTrue, OnOk, OnErr, Some};
ghost use Rattle.cb_kinds.specs.Texts.{entered, number_of};

use cb_plain::OutOfMemory;
use indexmap::IndexSet;
use std::alloc::{AllocError, Global};
use std::marker::Model;

/// The most texts that there may be.
const MOST: usize = u32::MAX as usize;

/// Texts, each once, in the order in which they were entered. Contracts see it as the list of them. There are fewer than 2^32.
#[derive(Drop)]
pub struct Texts {
    alloc: Global,
    texts: IndexSet<Vec<u16>>,
}

impl Model for Texts {
    ghost use Rattle.std.specs.Prelude.{ℕ, List, length, map, ◌<◌, ◌^◌};

    ghost Value = { List (List ℕ) };

    ghost view = { λ texts. map (λ text. text.items) texts.texts.keys };

    ghost invariant = { λ texts. length texts.texts.keys < 2 ^ 32 };
}

impl Texts {
    /// No texts. It takes memory from `alloc` as texts are entered.
    pub fn new(alloc: Global) -> Self
        ensures { result ≡ [] }
    {
        Texts {
            alloc,
            texts: IndexSet::new(alloc),
        }
    }

    /// How many texts there are.
    pub fn len(&self) -> usize
        ensures length { result ≡ length self.now }
        ensures few { result < 2 ^ 32 }
    {
        self.texts.len()
    }

    /// The text of a number, in constant time.
    pub fn text(&self, number: u32) -> &[u16]
        requires { number < length self.now }
        ensures { slice_get self.now number ≡ Some result.now }
    {
        self.texts.as_slice()[number as usize].as_slice()
    }

    /// The number of a text, if it is there. Takes expected time in its length.
    pub fn number(&self, text: &[u16]) -> Option<u32>
        ensures { result ≡ number_of self.now text.now }
    {
        let place = self.texts.get_index_of(text)?;
        Some(place as u32)
    }

    /// Enters a text, unless it is there. `OutOfMemory` where no memory was to be had, also where there would be 2^32 texts.
    /// Takes expected time in the text's length. A refused growth changes nothing.
    pub fn enter(&mut self, text: &[u16]) -> Result<(), OutOfMemory>
        ensures entered { OnOk result (self.new ≡ entered self.old text.now) }
        ensures refused { OnErr result (self.new ≡ self.old) }
    {
        if self.texts.contains(text) {
            return Ok(());
        }
        if !has_number(self.texts.len()) {
            return Err(AllocError);
        }
        let copy = Vec::from_slice(self.alloc, text)?;
        self.texts.insert(copy)?;
        Ok(())
    }
}

/// Whether one more than so many texts still has a number.
fn has_number(count: usize) -> bool
    ensures { IsTrue result ↔ (count + 1 < 2 ^ 32) }
{
    count < MOST
}
