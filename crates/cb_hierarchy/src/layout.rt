// The fields of objects.
ghost use Rattle.std.specs.Prelude.{◌≡◌, ◌<◌, ◌==◌, ◌&&◌, ◌++◌, not, ℕ, length, slice_get, IfOk, OnOk, Some};
ghost use Rattle.cb_hierarchy.specs.Layout.{layout, layout_by, own_fields};

use crate::rule::{Rule, append, lists_by};
use crate::{Classes, Field, FieldTable, Hierarchy};
use cb_plain::{List, Numbers, OutOfMemory};
use std::alloc::Global;

/// For each class the instance fields of its objects, those of its superclass first. `OutOfMemory` where no memory was to be
/// had. Takes time in what it gives and in the fields, times the number of classes.
pub fn layouts(
    alloc: Global,
    hierarchy: &Hierarchy,
    fields: &FieldTable,
) -> Result<List<Numbers>, OutOfMemory>
    ensures length { IfOk result (λ lists. length lists ≡ length hierarchy.now) }
    ensures each { IfOk result (λ lists. (class : ℕ) → class < length hierarchy.now
        → slice_get lists class ≡ Some (layout hierarchy.now fields.now class)) }
{
    let classes = hierarchy.classes();
    let order = hierarchy.parents_first();
    lists_by(alloc, classes, order, &Layout { classes, fields })
}

/// The list of the superclass, and then the fields of a class itself.
#[derive(Clone, Copy, Debug)]
struct Layout<'a> {
    classes: &'a Classes,
    fields: &'a FieldTable,
}

impl<'a> Rule for Layout<'a> {
    ghost classes = { λ rule. rule.classes.now };

    ghost rule = { λ rule. layout_by rule.classes.now rule.fields.now };

    fn list(&self, alloc: Global, number: u32, lists: &[Numbers]) -> Result<Numbers, OutOfMemory> {
        let mut list = Numbers::new(alloc);
        if let Some(parent) = self.classes.get(number as usize).superclass {
            append(&mut list, lists[parent as usize].as_slice())?;
        }
        add_own_fields(self.fields, number, &mut list)?;
        Ok(list)
    }
}

/// Adds the instance fields that a class declares.
fn add_own_fields(fields: &FieldTable, class: u32, list: &mut Numbers) -> Result<(), OutOfMemory>
    ensures { OnOk result (list.new ≡ list.old ++ own_fields fields.now class) }
{
    for number in 0..fields.count() {
        let field = fields.field(number);
        if is_own(field, class) {
            list.push(number)?;
        }
    }
    Ok(())
}

/// Whether a field is an instance field that a class declares.
fn is_own(field: &Field, class: u32) -> bool
    ensures { result ≡ ((field.now.declared.class == class) && not field.now.is_static) }
{
    field.declared.class == class && !field.is_static
}
