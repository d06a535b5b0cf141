// The shapes of a program's kinds, as a store takes them.
ghost use Rattle.std.specs.Prelude.{◌≡◌, ◌<◌, length, IfOk};
ghost use Rattle.cb_interp.specs.Fit.{ShapesOf};

use cb_link::Program;
use cb_plain::{Marks, OutOfMemory, Shape, Shapes};
use std::alloc::Global;

/// The shapes of the kinds of a program, in order. Takes time in the fields of all classes.
pub(crate) fn shapes_of(alloc: Global, program: &Program) -> Result<Shapes, OutOfMemory>
    ensures { IfOk result (ShapesOf program.now) }
{
    let mut shapes = Shapes::new(alloc);
    for kind in 0..program.kind_count() {
        let shape = copied(alloc, program.shape(kind))?;
        shapes.push(shape)?;
    }
    Ok(shapes)
}

/// The same shape.
fn copied(alloc: Global, shape: &Shape) -> Result<Shape, OutOfMemory>
    ensures { IfOk result (λ copy. copy ≡ shape.now) }
{
    match shape {
        Shape::Fields(marks) => {
            let marks = copied_marks(alloc, marks)?;
            Ok(Shape::Fields(marks))
        }
        Shape::Elements(mark) => Ok(Shape::Elements(*mark)),
    }
}

/// The same marks.
fn copied_marks(alloc: Global, marks: &Marks) -> Result<Marks, OutOfMemory>
    ensures { IfOk result (λ copy. copy ≡ marks.now) }
{
    let mut copy = Marks::new(alloc);
    for place in 0..marks.len() {
        copy.push(*marks.get(place))?;
    }
    Ok(copy)
}
