// Texts in order, of which the first of equal ones counts.
ghost use Rattle.std.specs.Prelude.{◌≡◌, ◌<◌, ◌^◌, [], ◌∷◌, ◌++◌, length, IfOk, OnOk, OnErr, Some};
ghost use Rattle.cb_kinds.specs.Texts.{entered, number_of};

use crate::first_places::FirstPlaces;
use crate::{Texts, kind_number};
use cb_plain::OutOfMemory;
use std::alloc::Global;
use std::marker::Model;

/// Texts in order, also equal ones. Contracts see it as the list of them. There are fewer than 2^32.
#[derive(Drop)]
pub struct TextNumbers {
    texts: Texts,
    places: FirstPlaces<u32>,
}

impl Model for TextNumbers {
    ghost use Rattle.std.specs.Prelude.{ℕ, List, map};
    ghost use Rattle.cb_kinds.specs.Numbers.{AreNumbered, IsNumber, text_of};

    ghost Value = { List (List ℕ) };

    ghost view = { λ numbers. map (text_of numbers.texts) numbers.places };

    ghost invariant = { λ numbers. AreNumbered IsNumber numbers.texts numbers.places };
}

impl TextNumbers {
    /// No texts. It takes memory from `alloc` as texts are added.
    pub fn new(alloc: Global) -> Self
        ensures { result ≡ [] }
    {
        TextNumbers {
            texts: Texts::new(alloc),
            places: FirstPlaces::new(alloc),
        }
    }

    /// How many texts there are.
    pub fn len(&self) -> usize
        ensures length { result ≡ length self.now }
        ensures few { result < 2 ^ 32 }
    {
        self.places.len()
    }

    /// Adds a text. `OutOfMemory` where no memory was to be had, also where there would be 2^32 texts. Takes expected time in
    /// the text's length. A refused growth changes nothing.
    pub fn push(&mut self, text: &[u16]) -> Result<(), OutOfMemory>
        ensures added { OnOk result (self.new ≡ self.old ++ text.now ∷ []) }
        ensures refused { OnErr result (self.new ≡ self.old) }
    {
        let number = number_entered(&mut self.texts, text)?;
        self.places.push(number)?;
        Ok(())
    }

    /// The number of the first that is the same as a text, if there is one. Takes expected time in its length.
    pub fn number(&self, text: &[u16]) -> Option<u32>
        ensures { result ≡ number_of self.now text.now }
    {
        let number = self.texts.number(text)?;
        self.places.first(number)
    }
}

/// Enters a text, unless it is there, and gives its number. `OutOfMemory` where no memory was to be had, also where there would
/// be 2^32 texts. Takes expected time in the text's length. A refused growth changes nothing.
pub(crate) fn number_entered(texts: &mut Texts, text: &[u16]) -> Result<u32, OutOfMemory>
    ensures entered { OnOk result (texts.new ≡ entered texts.old text.now) }
    ensures number { IfOk result (λ number. number_of texts.new text.now ≡ Some number) }
    ensures refused { OnErr result (texts.new ≡ texts.old) }
{
    texts.enter(text)?;
    Ok(kind_number(texts, text))
}
