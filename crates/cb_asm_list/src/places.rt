// Places of code, each found at once.
ghost use Rattle.std.specs.Prelude.{◌≡◌, ◌++◌, [], ◌∷◌, ℕ, OnErr, OnOk};
ghost use Rattle.cb_asm_list.specs.Inner.{index_of, lengthened};
ghost use Rattle.cb_asm_list.specs.Listing.{among, number_of};

use cb_plain::OutOfMemory;
use std::alloc::Global;
use std::marker::Model;

/// Places in the order in which they were added. Whether one is among them, and as which, is found in constant time.
#[derive(Debug, Drop)]
pub(crate) struct Places {
    places: Vec<u32>,
    numbers: Vec<Option<usize>>,
}

impl Model for Places {
    ghost use Rattle.std.specs.Prelude.{◌≡◌, ℕ, List, None, get_or};
    ghost use Rattle.cb_asm_list.specs.Inner.{index_of};

    ghost Value = { List ℕ };

    ghost view = { λ own. own.places.items };

    ghost invariant = { λ own. (place : ℕ) → get_or own.numbers.items place None ≡ index_of own.places.items place };
}

impl Places {
    /// No places. Those that are added take memory from `alloc`, in the greatest of them and in their number.
    pub(crate) fn new(alloc: Global) -> Self
        ensures { result ≡ [] }
    {
        Places {
            places: Vec::new(alloc),
            numbers: Vec::new(alloc),
        }
    }

    /// Adds a place. A refused growth changes nothing.
    pub(crate) fn push(&mut self, place: u32) -> Result<(), OutOfMemory>
        ensures ok { OnOk result (self.new ≡ self.old ++ place ∷ []) }
        ensures err { OnErr result (self.new ≡ self.old) }
    {
        let number = self.places.len();
        let index = place as usize;
        lengthen(&mut self.numbers, index + 1)?;
        self.places.push(place)?;
        if self.numbers[index].is_none() {
            self.numbers[index] = Some(number);
        }
        Ok(())
    }

    /// All places, in order.
    pub(crate) fn as_slice(&self) -> &[u32]
        ensures { result.now ≡ self.now }
    {
        self.places.as_slice()
    }

    /// The first number under which a place was added, counted from 0.
    fn find(&self, place: u32) -> Option<usize>
        ensures { result ≡ index_of self.now place }
    {
        match self.numbers.get(place as usize) {
            Some(number) => *number,
            None => None,
        }
    }

    /// Whether a place is among them.
    pub(crate) fn contains(&self, place: u32) -> bool
        ensures { result ≡ among self.now place }
    {
        self.find(place).is_some()
    }

    /// The first number of a place, or how many places there are where it isn't among them.
    pub(crate) fn number(&self, place: u32) -> usize
        ensures { result ≡ number_of self.now place }
    {
        match self.find(place) {
            Some(number) => number,
            None => self.places.len(),
        }
    }
}

/// Makes a table at least so long, by places without a number.
fn lengthen(numbers: &mut Vec<Option<usize>>, length: usize) -> Result<(), OutOfMemory>
    ensures ok { OnOk result (numbers.new.items ≡ lengthened numbers.old.items length) }
    ensures err { OnErr result (numbers.new.items ≡ numbers.old.items) }
{
    if numbers.len() < length {
        numbers.resize(length, None)?;
    }
    Ok(())
}
