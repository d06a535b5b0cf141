// The names that are looked for, in the order in which they were entered.
ghost use Rattle.std.specs.Prelude.{◌≡◌, ◌<◌, [], false, length, option_map, slice_get, IfOk, OnOk, Some};
ghost use Rattle.std.specs.List.{list_any};
ghost use Rattle.cb_load.specs.Closure.{covers};
ghost use Rattle.cb_load.specs.InnerEntering.{is_same, key_entry};
ghost use Rattle.cb_load.specs.Inner.{entered};

use cb_plain::OutOfMemory;
use indexmap::IndexSet;
use std::alloc::Global;
use std::marker::Model;

/// A name that was entered, and whether a class of that name has to be there.
#[derive(PartialEq, Eq, Hash, Drop)]
pub(crate) struct Key {
    name: Vec<u16>,
    needed: bool,
}

/// The names that are looked for, each once, and once more as needed where it wasn't at first. Contracts see it as the
/// list of these entries.
#[derive(Drop)]
pub(crate) struct Entries {
    alloc: Global,
    keys: IndexSet<Key>,
}

impl Model for Entries {
    ghost use Rattle.std.specs.Prelude.{List, map};
    ghost use Rattle.cb_load.specs.Names.{Entry};
    ghost use Rattle.cb_load.specs.InnerEntering.{key_entry};

    ghost Value = { List Entry };

    ghost view = { λ entries. map key_entry entries.keys.keys };
}

impl Entries {
    /// No names. It takes memory from `alloc` as names are entered.
    pub(crate) fn new(alloc: Global) -> Self
        ensures { result ≡ [] }
    {
        Entries {
            alloc,
            keys: IndexSet::new(alloc),
        }
    }

    /// What it takes memory from.
    pub(crate) fn alloc(&self) -> Global {
        self.alloc
    }

    /// How many entries there are.
    pub(crate) fn len(&self) -> usize
        ensures { result ≡ length self.now }
    {
        self.keys.len()
    }

    /// The name of the entry at a place.
    pub(crate) fn name(&self, place: usize) -> &[u16]
        requires { place < length self.now }
        ensures { option_map (λ entry. entry.name) (slice_get self.now place) ≡ Some result.now }
    {
        self.keys.as_slice()[place].name.as_slice()
    }

    /// Whether the entry at a place is needed.
    pub(crate) fn is_needed(&self, place: usize) -> bool
        requires { place < length self.now }
        ensures { option_map (λ entry. entry.needed) (slice_get self.now place) ≡ Some result }
    {
        self.keys.as_slice()[place].needed
    }

    /// Enters a name, if no entry makes it superfluous. `OutOfMemory` where no memory was to be had. Takes expected time in
    /// the length of the name.
    pub(crate) fn enter(&mut self, name: &[u16], needed: bool) -> Result<(), OutOfMemory>
        ensures { OnOk result (self.new ≡ entered self.old (record { name = name.now; needed = needed })) }
    {
        let name = copy_of(self.alloc, name)?;
        let as_needed = Key { name, needed: true };
        if self.has(&as_needed) {
            return Ok(());
        }
        let key = Key {
            name: as_needed.name,
            needed,
        };
        if self.has(&key) {
            return Ok(());
        }
        self.add(key)
    }

    /// Enters a name that no entry makes superfluous.
    fn add(&mut self, key: Key) -> Result<(), OutOfMemory>
        requires { list_any (λ before. covers before (key_entry key)) self.old ≡ false }
        ensures { OnOk result (self.new ≡ entered self.old (key_entry key)) }
    {
        self.keys.insert(key)?;
        Ok(())
    }

    /// Whether there is just this entry.
    fn has(&self, key: &Key) -> bool
        ensures { result ≡ list_any (is_same (key_entry key.now)) self.now }
    {
        self.keys.contains(key)
    }
}

/// The same units.
fn copy_of(alloc: Global, units: &[u16]) -> Result<Vec<u16>, OutOfMemory>
    ensures { IfOk result (λ copy. copy.items ≡ units.now) }
{
    let mut copy = Vec::with_capacity(alloc, units.len())?;
    copy.extend_from_slice(units)?;
    Ok(copy)
}
