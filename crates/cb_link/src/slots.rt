// The slots of fields.
ghost use Rattle.std.specs.Prelude.{◌≡◌, ◌+◌, ◌<◌, ◌^◌, ℕ, get_or, length, map, set, slice_get, vec_len, IfOk, OnOk, Some, if◌then◌else◌};
ghost use Rattle.std.specs.List.{Contains};
ghost use Rattle.cb_hierarchy.specs.Classes.{superclass};
ghost use Rattle.cb_hierarchy.specs.Layout.{layout};
ghost use Rattle.cb_hierarchy.specs.declared.member.Field.{Field as Ranked};
ghost use Rattle.cb_link.specs.InnerCounts.{count_above, slot_by, statics_in};
ghost use Rattle.cb_link.specs.InnerTables.{AreAll};

use cb_hierarchy::{Class, Field, FieldTable, Hierarchy};
use cb_plain::{List, Numbers, OutOfMemory, number_of, one_more};
use std::alloc::Global;

/// The slots of the fields that come next: that of a static one, and by class that of a field of objects.
#[derive(Drop)]
struct NextSlots {
    statics: u32,
    objects: Vec<u32>,
}

impl NextSlots {
    /// Takes the slot of a field.
    fn take(&mut self, field: &Field) -> Result<u32, OutOfMemory>
        requires { field.now.declared.class < vec_len self.old.objects }
        ensures slot { IfOk result (λ slot. slot ≡ (if field.now.is_static then self.old.statics else get_or self.old.objects.items field.now.declared.class 0)) }
        ensures statics { OnOk result (self.new.statics ≡ (if field.now.is_static then self.old.statics + 1 else self.old.statics)) }
        ensures objects { OnOk result (self.new.objects.items ≡ (if field.now.is_static then self.old.objects.items
            else set self.old.objects.items field.now.declared.class (get_or self.old.objects.items field.now.declared.class 0 + 1))) }
    {
        if field.is_static {
            let slot = self.statics;
            self.statics = one_more(slot)?;
            Ok(slot)
        } else {
            let class = field.declared.class as usize;
            let slot = self.objects[class];
            self.objects[class] = one_more(slot)?;
            Ok(slot)
        }
    }
}

/// How many fields the objects of a class's superclass have.
fn count_above(layouts: &List<Numbers>, class: &Class) -> Result<u32, OutOfMemory>
    ensures { IfOk result (λ count. count ≡ count_above layouts.now class.now) }
{
    let Some(parent) = class.superclass else {
        return Ok(0);
    };
    match layouts.as_slice().get(parent as usize) {
        Some(layout) => number_of(layout.len()),
        None => Ok(0),
    }
}

/// By class, how many fields the objects of its superclass have.
fn counts_above(
    alloc: Global,
    classes: &[Class],
    layouts: &List<Numbers>,
) -> Result<Vec<u32>, OutOfMemory>
    ensures { IfOk result (λ counts. counts.items ≡ map (count_above layouts.now) classes.now) }
{
    let mut counts = Vec::new(alloc);
    for class in classes {
        counts.push(count_above(layouts, class)?)?;
    }
    Ok(counts)
}

/// The slots of fields by number: a static one's is counted among all, and another's behind those of the superclass and those
/// of its class before it. Takes time in the classes and the fields.
pub(crate) fn slots(
    alloc: Global,
    hierarchy: &Hierarchy,
    fields: &FieldTable,
    layouts: &List<Numbers>,
) -> Result<Numbers, OutOfMemory>
    requires parents { (class parent : ℕ) → Contains (superclass hierarchy.now class) parent → parent < length hierarchy.now }
    requires declared { (number : ℕ) (field : Ranked) → slice_get fields.now number ≡ Some field → field.declared.class < length hierarchy.now }
    requires layouts { AreAll (length hierarchy.now) (layout hierarchy.now fields.now) layouts.now }
    ensures { IfOk result (AreAll (length fields.now) (slot_by hierarchy.now fields.now)) }
{
    let objects = counts_above(alloc, hierarchy.classes().as_slice(), layouts)?;
    let mut next = NextSlots {
        statics: 0,
        objects,
    };
    let mut slots = Numbers::new(alloc);
    for index in 0..fields.len() {
        let slot = next.take(fields.field(number_of(index)?))?;
        slots.push(slot)?;
    }
    Ok(slots)
}

/// The numbers of the static fields. `OutOfMemory` also where there are 2^32 fields.
pub(crate) fn statics(alloc: Global, fields: &FieldTable) -> Result<Numbers, OutOfMemory>
    ensures numbers { IfOk result (λ numbers. numbers ≡ statics_in fields.now) }
    ensures few { IfOk result (λ numbers. length numbers < 2 ^ 32) }
{
    let mut numbers = Numbers::new(alloc);
    for number in 0..number_of(fields.len())? {
        if fields.field(number).is_static {
            numbers.push(number)?;
        }
    }
    Ok(numbers)
}
