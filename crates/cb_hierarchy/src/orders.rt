// The classes upwards, and the order of lookup.
ghost use Rattle.std.specs.Prelude.{◌≡◌, ◌<◌, ◌++◌, ℕ, List, length, IfOk, OnOk};
ghost use Rattle.std.specs.List.{Contains, flat_map};
ghost use Rattle.cb_hierarchy.specs.Classes.{AreClasses};
ghost use Rattle.cb_hierarchy.specs.Inner.{AreDistinct, list_at};
ghost use Rattle.cb_hierarchy.specs.Orders.{lookup_order_by, upwards_by};
ghost use Rattle.cb_hierarchy.specs.InnerRows.{superclass_named};

use crate::distinct::Distinct;
use crate::rule::{Rule, append};
use crate::{Class, Classes};
use cb_plain::{Numbers, OutOfMemory};
use std::alloc::Global;

/// A class, and then the list of its superclass.
#[derive(Clone, Copy, Debug)]
pub(crate) struct Upwards<'a> {
    pub(crate) classes: &'a Classes,
}

impl<'a> Rule for Upwards<'a> {
    ghost classes = { λ rule. rule.classes.now };

    ghost rule = { λ rule. upwards_by rule.classes.now };

    fn list(&self, alloc: Global, number: u32, lists: &[Numbers]) -> Result<Numbers, OutOfMemory> {
        let mut list = Numbers::new(alloc);
        list.push(number)?;
        let class = self.classes.get(number as usize);
        if let Some(parent) = class.superclass {
            append(&mut list, lists[parent as usize].as_slice())?;
        }
        Ok(list)
    }
}

/// Adds the lists of these numbers.
pub(crate) fn append_lists(
    found: &mut Distinct,
    numbers: &[u32],
    lists: &[Numbers],
) -> Result<(), OutOfMemory>
    requires { (number : ℕ) → Contains numbers.now number → number < length lists.now }
    ensures { (taken : List ℕ) → AreDistinct taken found.old.numbers found.old.marks
        → OnOk result (AreDistinct (taken ++ flat_map (list_at lists.now) numbers.now) found.new.numbers found.new.marks) }
{
    for number in numbers {
        found.append(lists[*number as usize].as_slice())?;
    }
    Ok(())
}

/// Adds the list of the superclass of a class, if it has one.
fn append_superclass(
    found: &mut Distinct,
    class: &Class,
    lists: &[Numbers],
) -> Result<(), OutOfMemory>
    requires { (number : ℕ) → Contains (superclass_named class.now) number → number < length lists.now }
    ensures { (taken : List ℕ) → AreDistinct taken found.old.numbers found.old.marks
        → OnOk result (AreDistinct (taken ++ flat_map (list_at lists.now) (superclass_named class.now)) found.new.numbers found.new.marks) }
{
    if let Some(parent) = class.superclass {
        found.append(lists[parent as usize].as_slice())?;
    }
    Ok(())
}

/// A class, the lists of its superinterfaces, and that of its superclass, each number once.
#[derive(Clone, Copy, Debug)]
pub(crate) struct Lookup<'a> {
    pub(crate) classes: &'a Classes,
}

impl<'a> Rule for Lookup<'a> {
    ghost classes = { λ rule. rule.classes.now };

    ghost rule = { λ rule. lookup_order_by rule.classes.now };

    fn list(&self, alloc: Global, number: u32, lists: &[Numbers]) -> Result<Numbers, OutOfMemory> {
        let mut found = Distinct::new(alloc)?;
        found.push(number)?;
        let class = self.classes.get(number as usize);
        append_lists(&mut found, class.interfaces.as_slice(), lists)?;
        append_superclass(&mut found, class, lists)?;
        Ok(found.numbers)
    }
}
