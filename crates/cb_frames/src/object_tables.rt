// The tables of objects that there are once.
ghost use Rattle.std.specs.Prelude.{◌≡◌, ◌<◌, ◌^◌, length, slice_get, slice_set, IfOk, Some};
ghost use Rattle.cb_plain.specs.Roots.{table_in};
ghost use Rattle.cb_frames.specs.Beginning.{blank_tables};
ghost use Rattle.cb_frames.specs.Entries.{nulled_tables, table_entries};
ghost use Rattle.cb_frames.specs.InnerTables.{start_of, with_place};

use crate::RootSizes;
use cb_plain::{OutOfMemory, Table};
use std::alloc::Global;
use std::marker::Model;

// How many ints and how many longs have one box each, and how many chars and booleans (JLS §5.1.7).
const SMALL_NUMBERS: usize = 256;

const SMALL_CHARS: usize = 128;

const TRUTH_VALUES: usize = 2;

/// Where each table but the first begins.
#[derive(Clone, Copy, Debug, Drop, Eq, PartialEq)]
pub(crate) struct Starts {
    classes: usize,
    integers: usize,
    longs: usize,
    characters: usize,
    booleans: usize,
}

impl Starts {
    /// Where a table begins.
    fn of(self, which: Table) -> usize
        ensures { result ≡ start_of self which }
    {
        match which {
            Table::Constants => 0,
            Table::ClassObjects => self.classes,
            Table::Integers => self.integers,
            Table::Longs => self.longs,
            Table::Characters => self.characters,
            Table::Booleans => self.booleans,
        }
    }
}

/// The tables, one behind another.
#[derive(Drop)]
pub(crate) struct ObjectTables {
    all: Vec<u64>,
    starts: Starts,
}

impl Model for ObjectTables {
    ghost use Rattle.cb_plain.specs.State.{Tables};

    ghost Value = { Tables };

    ghost use Rattle.cb_frames.specs.InnerTables.{tables_in, AreCut};

    ghost view = { λ tables. tables_in tables.all.items tables.starts };

    ghost invariant = { λ tables. AreCut tables.all.items tables.starts };
}

impl ObjectTables {
    /// Tables with as many objects as a program has texts and kinds, none of which there is yet.
    pub(crate) fn make(alloc: Global, sizes: RootSizes) -> Result<ObjectTables, OutOfMemory>
        ensures { IfOk result (λ tables. tables ≡ blank_tables sizes) }
    {
        let classes = sizes.constants as usize;
        let integers = classes + sizes.kinds as usize;
        let longs = integers + SMALL_NUMBERS;
        let characters = longs + SMALL_NUMBERS;
        let booleans = characters + SMALL_CHARS;
        let all = vec![in alloc; 0_u64; booleans + TRUTH_VALUES]?;
        Ok(ObjectTables {
            all,
            starts: Starts {
                classes,
                integers,
                longs,
                characters,
                booleans,
            },
        })
    }

    /// Tables without places.
    #[inline(always)]
    pub(crate) fn none(alloc: Global) -> ObjectTables {
        ObjectTables {
            all: Vec::new(alloc),
            starts: Starts {
                classes: 0,
                integers: 0,
                longs: 0,
                characters: 0,
                booleans: 0,
            },
        }
    }

    /// The object at a place of a table, 0 where there is none yet.
    pub(crate) fn get(&self, which: Table, i: u32) -> u64
        requires { i < length (table_in self.now which) }
        ensures { slice_get (table_in self.now which) i ≡ Some result }
    {
        self.all[self.starts.of(which) + i as usize]
    }

    /// Puts an object at a place of a table.
    pub(crate) fn set(&mut self, which: Table, i: u32, to: u64)
        requires { i < length (table_in self.old which) }
        ensures { self.new ≡ with_place self.old which i to }
    {
        let at = self.starts.of(which) + i as usize;
        self.all[at] = to;
    }

    /// How many places all tables have.
    pub(crate) fn len(&self) -> usize
        ensures entries { result ≡ length (table_entries self.now) }
        ensures few { result < 2 ^ 34 }
    {
        self.all.len()
    }

    /// The object at a place among those of all tables.
    pub(crate) fn reference(&self, i: usize) -> u64
        requires { i < length (table_entries self.now) }
        ensures { slice_get (table_entries self.now) i ≡ Some result }
    {
        self.all[i]
    }

    /// Puts an object at a place among those of all tables.
    pub(crate) fn set_reference(&mut self, i: usize, to: u64)
        requires { i < length (table_entries self.old) }
        ensures entry { table_entries self.new ≡ slice_set (table_entries self.old) i to }
        ensures rest { nulled_tables self.new ≡ nulled_tables self.old }
    {
        self.all[i] = to;
    }
}
