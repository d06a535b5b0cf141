// The constants of a program, with their indices.
ghost use Rattle.std.specs.Prelude.{◌≡◌, List, map, MatchResult};
ghost use Rattle.std.specs.List.{flat_map};
ghost use Rattle.cb_text.specs.Pool.{IsPool};
ghost use Rattle.cb_asm_record.specs.Constants.{entries_of, index_of, pool_of};
ghost use Rattle.cb_asm_record.specs.Entries.{Class, Text, with_parts};
ghost use Rattle.cb_asm_record.specs.Inner.{Holds, IsHopeless, Makes, key_entry};
ghost use Rattle.cb_asm_record.specs.Record.{class_index};

use crate::key::Key;
use crate::numbering::Numbering;
use crate::stop::Stop;
use crate::uses::Uses;
use cb_text::{Pool, Units};
use std::alloc::Global;
use std::collections::BTreeMap;
use std::marker::Model;

/// The constants of a program, by what it uses. Contracts see them in the order of their indices.
#[derive(Drop)]
pub(crate) struct Constants<'a> {
    uses: Uses<'a>,
    numbering: Numbering<'a>,
}

impl<'a> Model for Constants<'a> {
    ghost use Rattle.std.specs.Prelude.{List};
    ghost use Rattle.std.specs.List.{flat_map};
    ghost use Rattle.cb_asm_record.specs.Constants.{entries_of};
    ghost use Rattle.cb_asm_record.specs.Entries.{Entry, with_parts};
    ghost use Rattle.cb_asm_record.specs.Inner.{Holds};

    ghost Value = { List Entry };

    ghost view = { λ constants. entries_of constants.uses };

    ghost invariant = { λ constants. Holds (flat_map with_parts constants.uses) constants.numbering.pool constants.numbering.indices };
}

impl<'a> Constants<'a> {
    /// The index of a constant. Takes time in its size, times the logarithm of their number.
    pub(crate) fn index(&self, key: Key<'a>) -> u16
        ensures { result ≡ index_of self.now (key_entry key.entry) }
    {
        self.numbering.index(key)
    }

    /// The index of a text.
    pub(crate) fn text(&self, text: &'a Units) -> u16
        ensures { result ≡ index_of self.now (Text text.now) }
    {
        self.index(Key::Text(text.as_slice()))
    }

    /// The index of a class, by its name.
    pub(crate) fn class(&self, name: &'a Units) -> u16
        ensures { result ≡ index_of self.now (Class name.now) }
    {
        self.index(Key::Class(name.as_slice()))
    }

    /// The index of a class, or 0 for none.
    pub(crate) fn optional_class(&self, name: &'a Option<Units>) -> u16
        ensures { result ≡ class_index self.now name.now }
    {
        match name {
            Some(name) => self.class(name),
            None => 0,
        }
    }

    /// The pool of the constants.
    pub(crate) fn into_pool(self) -> Pool
        ensures { result ≡ pool_of self.entry }
    {
        let numbering = self.numbering;
        numbering.pool
    }
}

/// The constants of a program, by what it uses. `NoRecord` where they make no pool. Takes time in the size of what is
/// used, times the logarithm of its number.
pub(crate) fn constants_of<'a>(alloc: Global, uses: Uses<'a>) -> Result<Constants<'a>, Stop>
    ensures { Makes (entries_of uses.entry) (IsPool (pool_of (entries_of uses.entry))) result }
{
    let numbering = numbering_of(alloc, uses.as_slice())?;
    Ok(Constants { uses, numbering })
}

/// The indices of constants, each of which is used.
fn numbering_of<'a>(alloc: Global, keys: &[Key<'a>]) -> Result<Numbering<'a>, Stop>
    ensures { let used = flat_map with_parts (map key_entry keys.now) in
        MatchResult result (λ numbering. Holds used numbering.pool numbering.indices) (IsHopeless used) }
{
    let mut numbering = Numbering {
        pool: Pool::new(alloc),
        indices: BTreeMap::new(alloc),
    };
    for key in keys {
        numbering.enter(alloc, *key)?;
    }
    Ok(numbering)
}
