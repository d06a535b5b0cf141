// Lists that are made of the lists of parents.
ghost use Rattle.std.specs.Prelude.{◌≡◌, ◌<◌, ◌++◌, ℕ, List as Items, [], length, replicate, slice_get, IfOk, OnOk, Some};
ghost use Rattle.std.specs.List.{Contains};
ghost use Rattle.cb_hierarchy.specs.declared.class.Class.{Class as Declaration};
ghost use Rattle.cb_hierarchy.specs.Classes.{AreClasses, parents};
ghost use Rattle.cb_hierarchy.specs.Inner.{IsLocal, IsParentsFirst, list_at};
ghost use Rattle.cb_hierarchy.specs.Orders.{in_turns};

use crate::Classes;
use cb_plain::{List, Numbers, OutOfMemory};
use std::alloc::Global;

/// A rule that makes the list of a class from those of its parents.
pub(crate) trait Rule {
    ghost classes: { Self → Items Declaration };

    ghost rule: { Self → (ℕ → Items ℕ) → ℕ → Items ℕ };

    /// The list of a class, where these are the lists of all classes so far.
    fn list(&self, alloc: Global, number: u32, lists: &[Numbers]) -> Result<Numbers, OutOfMemory>
        requires known { AreClasses (classes self.now) }
        requires within { number < length (classes self.now) }
        requires as_many { length lists.now ≡ length (classes self.now) }
        ensures { IfOk result (λ list. list ≡ rule self.now (list_at lists.now) number) };
}

/// Adds numbers at the end of a list.
pub(crate) fn append(list: &mut Numbers, more: &[u32]) -> Result<(), OutOfMemory>
    ensures { OnOk result (list.new ≡ list.old ++ more.now) }
{
    for number in more {
        list.push(*number)?;
    }
    Ok(())
}

/// So many lists without numbers.
pub(crate) fn empty_lists(alloc: Global, count: usize) -> Result<Vec<Numbers>, OutOfMemory>
    ensures { IfOk result (λ lists. lists.items ≡ replicate count []) }
{
    let mut lists = Vec::new(alloc);
    for _i in 0..count {
        lists.push(Numbers::new(alloc))?;
    }
    Ok(lists)
}

/// The same lists, as a list.
fn collected(alloc: Global, lists: Vec<Numbers>) -> Result<List<Numbers>, OutOfMemory>
    ensures { IfOk result (λ list. list ≡ lists.items) }
{
    let mut list = List::new(alloc);
    for item in lists {
        list.push(item)?;
    }
    Ok(list)
}

/// The lists of all classes, by a rule. `order` has each class behind its parents.
pub(crate) fn lists_by<R: Rule>(
    alloc: Global,
    classes: &Classes,
    order: &[u32],
    rule: &R,
) -> Result<List<Numbers>, OutOfMemory>
    requires classes { AreClasses classes.now }
    requires order { IsParentsFirst classes.now order.now }
    requires same { R.classes rule.now ≡ classes.now }
    requires local { IsLocal classes.now (R.rule rule.now) }
    ensures length { IfOk result (λ lists. length lists ≡ length classes.now) }
    ensures each { IfOk result (λ lists. (class : ℕ) → class < length classes.now
        → slice_get lists class ≡ Some (in_turns (R.rule rule.now) (length classes.now) class)) }
{
    let mut lists = empty_lists(alloc, classes.len())?;
    for number in order {
        let list = rule.list(alloc, *number, lists.as_slice())?;
        lists[*number as usize] = list;
    }
    collected(alloc, lists)
}
