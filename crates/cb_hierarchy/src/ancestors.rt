// What is above each class.
ghost use Rattle.std.specs.Prelude.{◌≡◌, ◌^◌, ◌<◌, ℕ, length, map, IfOk, OnOk, vec_len};
ghost use Rattle.std.specs.List.{Contains};
ghost use Rattle.cb_hierarchy.specs.Classes.{AreClasses, parents, superclass};
ghost use Rattle.cb_hierarchy.specs.Inner.{list_at};
ghost use Rattle.cb_hierarchy.specs.InnerRows.{AreSquare, ListsAbove, MarkAbove, MarkLists, how_many, marked};

use crate::Classes;
use crate::distinct::Distinct;
use crate::marks::Marks;
use crate::parents::{parent_lists, superclass_lists};
use cb_plain::{List, Numbers, OutOfMemory};
use std::alloc::Global;
use std::marker::Model;

/// For each class a row that marks what is above it. Contracts see the rows.
#[derive(Debug, Drop)]
pub(crate) struct Ancestors {
    rows: Vec<Marks>,
}

impl Model for Ancestors {
    ghost use Rattle.std.specs.Prelude.{Bool, List};

    ghost Value = { List (List Bool) };

    ghost view = { λ ancestors. ancestors.rows.items };
}

impl Ancestors {
    /// The superclass and the superinterfaces, direct or not, of each class.
    pub(crate) fn of_parents(alloc: Global, classes: &Classes) -> Result<Self, OutOfMemory>
        requires { AreClasses classes.now }
        ensures square { IfOk result (λ ancestors. AreSquare (length classes.now) ancestors) }
        ensures marks { IfOk result (λ ancestors. MarkAbove (parents classes.now) ancestors) }
    {
        let lists = parent_lists(alloc, classes)?;
        let rows = closed(alloc, &lists)?;
        Ok(Ancestors { rows })
    }

    /// The superclasses of each class.
    pub(crate) fn of_superclasses(alloc: Global, classes: &Classes) -> Result<Self, OutOfMemory>
        requires { AreClasses classes.now }
        ensures square { IfOk result (λ ancestors. AreSquare (length classes.now) ancestors) }
        ensures marks { IfOk result (λ ancestors. MarkAbove (superclass classes.now) ancestors) }
    {
        let lists = superclass_lists(alloc, classes)?;
        let rows = closed(alloc, &lists)?;
        Ok(Ancestors { rows })
    }

    /// Whether a class is above another one.
    pub(crate) fn has(&self, class: u32, other: u32) -> bool
        ensures { result ≡ marked self.now class other }
    {
        match self.rows.get(class as usize) {
            Some(row) => row.has(other),
            None => false,
        }
    }

    /// How many classes are above each.
    pub(crate) fn counts(&self, alloc: Global) -> Result<Vec<usize>, OutOfMemory>
        ensures { IfOk result (λ counts. counts.items ≡ map how_many self.now) }
    {
        self.rows.iter().map(|row| row.count()).collect(alloc)
    }
}

/// A row for each list, which marks its numbers.
pub(crate) fn rows_of(alloc: Global, lists: &List<Numbers>) -> Result<Vec<Marks>, OutOfMemory>
    ensures length { IfOk result (λ rows. length rows.items ≡ length lists.now) }
    ensures square { IfOk result (λ rows. ((class number : ℕ) → Contains (list_at lists.now class) number → number < length lists.now)
        → AreSquare (length lists.now) rows.items) }
    ensures marks { IfOk result (λ rows. MarkLists lists.now rows.items) }
{
    let mut rows = Vec::new(alloc);
    for list in lists.as_slice() {
        rows.push(Marks::of(alloc, lists.len(), list.as_slice())?)?;
    }
    Ok(rows)
}

/// What is above a class, where these are the lists of parents. Takes time in the parents of what is above it.
fn reached(alloc: Global, lists: &List<Numbers>, class: u32) -> Result<Numbers, OutOfMemory>
    requires class { class < length lists.now }
    requires below { (class number : ℕ) → Contains (list_at lists.now class) number → number < length lists.now }
    ensures { IfOk result (ListsAbove (list_at lists.now) class) }
{
    let mut found = Distinct::new(alloc)?;
    found.append(lists.get(class as usize).as_slice())?;
    let mut next = 0;
    while next < found.numbers.len() {
        let parents = lists.get(*found.numbers.get(next) as usize);
        found.append(parents.as_slice())?;
        next += 1;
    }
    Ok(found.numbers)
}

/// A row for each list of parents, which marks what is above its class.
fn closed(alloc: Global, lists: &List<Numbers>) -> Result<Vec<Marks>, OutOfMemory>
    requires few { length lists.now < 2 ^ 32 }
    requires below { (class number : ℕ) → Contains (list_at lists.now class) number → number < length lists.now }
    ensures square { IfOk result (λ rows. AreSquare (length lists.now) rows.items) }
    ensures marks { IfOk result (λ rows. MarkAbove (list_at lists.now) rows.items) }
{
    let mut above = List::new(alloc);
    for class in 0..lists.len() as u32 {
        above.push(reached(alloc, lists, class)?)?;
    }
    rows_of(alloc, &above)
}
