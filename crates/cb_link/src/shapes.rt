// The shapes of objects.
ghost use Rattle.std.specs.Prelude.{◌≡◌, length, map, IfOk};
ghost use Rattle.cb_kinds.specs.Basics.{component_of};
ghost use Rattle.cb_link.specs.Numbers.{class_number};
ghost use Rattle.cb_link.specs.Slots.{basic_of_field, field_marks, is_some_reference, object_fields, shape, shape_with};
ghost use Rattle.cb_link.specs.InnerTables.{AreAll};

use crate::base::Base;
use cb_kinds::component_of;
use cb_plain::{List, Marks, Numbers, OutOfMemory, Shape, Shapes};
use std::alloc::Global;

/// Whether the values of a field are references.
fn is_reference_field(base: &Base, number: u32) -> bool
    ensures { result ≡ is_some_reference (basic_of_field base.now number) }
{
    match base.fields.as_slice().get(number as usize) {
        Some(field) => field.basic.is_reference(),
        None => false,
    }
}

/// Which of the fields of these numbers hold references.
fn marks(alloc: Global, base: &Base, layout: &[u32]) -> Result<Marks, OutOfMemory>
    ensures { IfOk result (λ marks. marks ≡ map (λ number. is_some_reference (basic_of_field base.now number)) layout.now) }
{
    let mut marks = Marks::new(alloc);
    for number in layout {
        marks.push(is_reference_field(base, *number))?;
    }
    Ok(marks)
}

/// Which fields of the objects of the class of a name hold references. Where there is no such class, there are no objects.
fn marks_of_name(
    alloc: Global,
    base: &Base,
    layouts: &List<Numbers>,
    name: &[u16],
) -> Result<Marks, OutOfMemory>
    requires { AreAll (length base.now.classes) (object_fields base.now.classes) layouts.now }
    ensures { IfOk result (λ marks. marks ≡ field_marks base.now (class_number base.now.classes name.now)) }
{
    match base.resolver.class_number(name) {
        Some(class) => marks(alloc, base, layouts.get(class as usize).as_slice()),
        None => Ok(Marks::new(alloc)),
    }
}

/// The shape of the objects of the kind of a name.
fn shape_of_name(
    alloc: Global,
    base: &Base,
    layouts: &List<Numbers>,
    name: &[u16],
) -> Result<Shape, OutOfMemory>
    requires { AreAll (length base.now.classes) (object_fields base.now.classes) layouts.now }
    ensures { IfOk result (λ made. made ≡ shape_with base.now name.now (component_of base.now.kinds name.now)) }
{
    match component_of(&base.kinds, name) {
        Some(component) => Ok(Shape::Elements(component.is_reference())),
        None => Ok(Shape::Fields(marks_of_name(alloc, base, layouts, name)?)),
    }
}

/// The shapes of objects by their kinds. Takes time in the names of kinds and the fields of objects.
pub(crate) fn shapes(
    alloc: Global,
    base: &Base,
    layouts: &List<Numbers>,
) -> Result<Shapes, OutOfMemory>
    requires { AreAll (length base.now.classes) (object_fields base.now.classes) layouts.now }
    ensures { IfOk result (AreAll (length base.now.kinds) (shape base.now)) }
{
    let mut shapes = Shapes::new(alloc);
    for kind in 0..base.kinds.len() {
        let name = base.kinds.text(kind as u32);
        shapes.push(shape_of_name(alloc, base, layouts, name)?)?;
    }
    Ok(shapes)
}
