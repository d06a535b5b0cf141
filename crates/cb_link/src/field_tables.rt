// What is asked of fields.
ghost use Rattle.std.specs.Prelude.{◌≡◌, ◌<◌, ◌^◌, length, IfOk};
ghost use Rattle.cb_link.specs.Numbers.{ranked_fields};
ghost use Rattle.cb_link.specs.Slots.{object_fields, slot_of, statics};
ghost use Rattle.cb_link.specs.InnerTables.{AreAll, IsFieldTables};

use crate::base::Base;
use crate::enums::enums;
use crate::resolver::Resolver;
use crate::shapes::shapes;
use crate::slots::{slots, statics};
use cb_hierarchy::layouts;
use cb_plain::{List, Numbers, OutOfMemory, Shapes};
use std::alloc::Global;

/// What is asked of fields: by number, their slots; the numbers of the static ones; by class, the slots of an enum's constants
/// and the numbers of the fields of an object; and by kind, which words of an object hold references.
#[derive(Drop)]
pub(crate) struct FieldTables {
    pub(crate) slots: Numbers,
    pub(crate) statics: Numbers,
    pub(crate) enums: Vec<Numbers>,
    pub(crate) layouts: List<Numbers>,
    pub(crate) shapes: Shapes,
}

impl FieldTables {
    /// The tables of a program. `OutOfMemory` where no memory was to be had. Takes time in the fields, times the number of
    /// classes, and in what the tables hold.
    pub(crate) fn of(alloc: Global, base: &Base) -> Result<Self, OutOfMemory>
        ensures { IfOk result (IsFieldTables base.now) }
    {
        let layouts = layouts_of(alloc, &base.resolver)?;
        let slots = slots_of(alloc, &base.resolver, &layouts)?;
        let statics = statics_of(alloc, &base.resolver)?;
        let enums = enums(alloc, base, &slots)?;
        let shapes = shapes(alloc, base, &layouts)?;
        Ok(FieldTables {
            slots,
            statics,
            enums,
            layouts,
            shapes,
        })
    }
}

/// By class, the numbers of the fields of an object.
fn layouts_of(alloc: Global, resolver: &Resolver) -> Result<List<Numbers>, OutOfMemory>
    ensures { IfOk result (AreAll (length resolver.now) (object_fields resolver.now)) }
{
    layouts(alloc, resolver.hierarchy(), resolver.fields())
}

/// The slots of fields by number.
fn slots_of(
    alloc: Global,
    resolver: &Resolver,
    layouts: &List<Numbers>,
) -> Result<Numbers, OutOfMemory>
    requires { AreAll (length resolver.now) (object_fields resolver.now) layouts.now }
    ensures { IfOk result (AreAll (length (ranked_fields resolver.now)) (slot_of resolver.now)) }
{
    slots(alloc, resolver.hierarchy(), resolver.fields(), layouts)
}

/// The numbers of the static fields.
fn statics_of(alloc: Global, resolver: &Resolver) -> Result<Numbers, OutOfMemory>
    ensures numbers { IfOk result (λ numbers. numbers ≡ statics resolver.now) }
    ensures few { IfOk result (λ numbers. length numbers < 2 ^ 32) }
{
    statics(alloc, resolver.fields())
}
