// The lists of those that classes name.
ghost use Rattle.std.specs.Prelude.{◌≡◌, ◌++◌, map, IfOk};
ghost use Rattle.cb_hierarchy.specs.Classes.{listed};
ghost use Rattle.cb_hierarchy.specs.InnerRows.{all_named, superclass_named};

use crate::rule::append;
use crate::{Class, Classes};
use cb_plain::{List, Numbers, OutOfMemory};
use std::alloc::Global;

/// The superclass of a class, if it has one.
fn superclass_of(alloc: Global, class: &Class) -> Result<Numbers, OutOfMemory>
    ensures { IfOk result (λ list. list ≡ superclass_named class.now) }
{
    let mut list = Numbers::new(alloc);
    if let Some(parent) = class.superclass {
        list.push(parent)?;
    }
    Ok(list)
}

/// Its superclass and its direct superinterfaces.
fn parents_of(alloc: Global, class: &Class) -> Result<Numbers, OutOfMemory>
    ensures { IfOk result (λ list. list ≡ all_named class.now) }
{
    let mut list = superclass_of(alloc, class)?;
    append(&mut list, class.interfaces.as_slice())?;
    Ok(list)
}

/// The superclasses of all classes.
pub(crate) fn superclass_lists(
    alloc: Global,
    classes: &Classes,
) -> Result<List<Numbers>, OutOfMemory>
    ensures { IfOk result (λ lists. lists ≡ map superclass_named classes.now) }
{
    let mut lists = List::new(alloc);
    for class in classes.as_slice() {
        lists.push(superclass_of(alloc, class)?)?;
    }
    Ok(lists)
}

/// The superclasses and the direct superinterfaces of all classes.
pub(crate) fn parent_lists(alloc: Global, classes: &Classes) -> Result<List<Numbers>, OutOfMemory>
    ensures { IfOk result (λ lists. lists ≡ map all_named classes.now) }
{
    let mut lists = List::new(alloc);
    for class in classes.as_slice() {
        lists.push(parents_of(alloc, class)?)?;
    }
    Ok(lists)
}
