// Keys in order, of which the first of equal ones counts.
ghost use Rattle.std.specs.Prelude.{◌≡◌, ◌<◌, ◌+◌, ◌^◌, ◌↔◌, [], ◌∷◌, ◌++◌, length, position, IsTrue, OnOk, OnErr};

use cb_plain::OutOfMemory;
use indexmap::IndexMap;
use std::alloc::{AllocError, Global};
use std::hash::Hash;
use std::marker::Model;

/// The most keys that there may be.
const MOST: usize = u32::MAX as usize;

/// Keys in order, also equal ones. Contracts see it as the list of them. There are fewer than 2^32.
#[derive(Drop)]
pub(crate) struct FirstPlaces<K: Copy + Eq + Hash + Drop> {
    keys: Vec<K>,
    firsts: IndexMap<K, u32>,
}

impl<K: Copy + Eq + Hash + Drop> Model for FirstPlaces<K> {
    ghost use Rattle.std.specs.Prelude.{List};
    ghost use Rattle.cb_kinds.specs.FirstPlaces.{HasFirsts};

    ghost Value = { List K };

    ghost view = { λ places. places.keys.items };

    ghost invariant = { λ places. HasFirsts K.eq places.keys.items places.firsts };
}

impl<K: Copy + Eq + Hash + Drop> FirstPlaces<K> {
    /// No keys. It takes memory from `alloc` as keys are added.
    pub(crate) fn new(alloc: Global) -> Self
        ensures { result ≡ [] }
    {
        FirstPlaces {
            keys: Vec::new(alloc),
            firsts: IndexMap::new(alloc),
        }
    }

    /// How many keys there are.
    pub(crate) fn len(&self) -> usize
        ensures length { result ≡ length self.now }
        ensures few { result < 2 ^ 32 }
    {
        self.keys.len()
    }

    /// The place of the first key that is equal to this one. Takes expected constant time.
    pub(crate) fn first(&self, key: K) -> Option<u32>
        ensures { result ≡ position (K.eq key) self.now }
    {
        self.firsts.get(&key).copied()
    }

    /// Adds a key. `OutOfMemory` where no memory was to be had, also where there would be 2^32 keys; then nothing has changed.
    pub(crate) fn push(&mut self, key: K) -> Result<(), OutOfMemory>
        ensures added { OnOk result (self.new ≡ self.old ++ key ∷ []) }
        ensures refused { OnErr result (self.new ≡ self.old) }
    {
        let place = self.keys.len();
        if !has_number(place) {
            return Err(AllocError);
        }
        self.keys.reserve(1)?;
        if !self.firsts.contains_key(&key) {
            self.firsts.insert(key, place as u32)?;
        }
        self.keys.push(key)?;
        Ok(())
    }
}

/// Whether one more than so many keys still has a place.
fn has_number(count: usize) -> bool
    ensures { IsTrue result ↔ (count + 1 < 2 ^ 32) }
{
    count < MOST
}
