// Pairs of a name and a descriptor in order, of which the first of equal ones counts.
ghost use Rattle.std.specs.Prelude.{◌≡◌, ◌<◌, ◌^◌, [], ◌∷◌, ◌++◌, length, OnOk, OnErr};
ghost use Rattle.cb_kinds.specs.Texts.{number_of_pair};

use crate::Texts;
use crate::first_places::FirstPlaces;
use crate::text_numbers::number_entered;
use cb_plain::OutOfMemory;
use std::alloc::Global;
use std::marker::Model;

/// Pairs of a name and a descriptor in order, also equal ones. Contracts see it as the list of them. There are fewer than 2^32.
#[derive(Drop)]
pub struct PairNumbers {
    texts: Texts,
    places: FirstPlaces<(u32, u32)>,
}

impl Model for PairNumbers {
    ghost use Rattle.std.specs.Prelude.{ℕ, List, map};
    ghost use Rattle.cb_kinds.specs.Numbers.{AreNumbered, IsPair, pair_of};

    ghost Value = { List (List ℕ × List ℕ) };

    ghost view = { λ numbers. map (pair_of numbers.texts) numbers.places };

    ghost invariant = { λ numbers. AreNumbered IsPair numbers.texts numbers.places };
}

impl PairNumbers {
    /// No pairs. It takes memory from `alloc` as pairs are added.
    pub fn new(alloc: Global) -> Self
        ensures { result ≡ [] }
    {
        PairNumbers {
            texts: Texts::new(alloc),
            places: FirstPlaces::new(alloc),
        }
    }

    /// How many pairs there are.
    pub fn len(&self) -> usize
        ensures length { result ≡ length self.now }
        ensures few { result < 2 ^ 32 }
    {
        self.places.len()
    }

    /// Adds a pair. `OutOfMemory` where no memory was to be had, also where there would be 2^32 pairs or texts in them. Takes
    /// expected time in the length of both. A refused growth changes nothing.
    pub fn push(&mut self, name: &[u16], descriptor: &[u16]) -> Result<(), OutOfMemory>
        ensures added { OnOk result (self.new ≡ self.old ++ (name.now, descriptor.now) ∷ []) }
        ensures refused { OnErr result (self.new ≡ self.old) }
    {
        let name_number = number_entered(&mut self.texts, name)?;
        let descriptor_number = number_entered(&mut self.texts, descriptor)?;
        self.places.push((name_number, descriptor_number))?;
        Ok(())
    }

    /// The number of the first that has this name and descriptor, if there is one. Takes expected time in the length of both.
    pub fn number(&self, name: &[u16], descriptor: &[u16]) -> Option<u32>
        ensures { result ≡ number_of_pair self.now (name.now, descriptor.now) }
    {
        let name_number = self.texts.number(name)?;
        let descriptor_number = self.texts.number(descriptor)?;
        self.places.first((name_number, descriptor_number))
    }
}
