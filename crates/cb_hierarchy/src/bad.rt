// The classes that can't be in a hierarchy.
ghost use Rattle.std.specs.Prelude.{◌≡◌, ◌<◌, length, IfOk};
ghost use Rattle.cb_hierarchy.specs.Bad.{IsFirstBad};
ghost use Rattle.cb_hierarchy.specs.Classes.{AreClasses, is_final, is_interface};
ghost use Rattle.cb_hierarchy.specs.InnerFinals.{extends_badly, implements_badly, is_bad};
ghost use Rattle.cb_hierarchy.specs.InnerRows.{superclass_named};

use crate::ancestors::Ancestors;
use crate::marks::Marks;
use crate::overriding::overriding;
use crate::{Class, Classes, MethodTable};
use cb_plain::OutOfMemory;
use std::alloc::Global;

/// Whether a number is that of an interface.
fn is_interface(classes: &Classes, number: u32) -> bool
    ensures { result ≡ is_interface classes.now number }
{
    match classes.as_slice().get(number as usize) {
        Some(class) => class.is_interface,
        None => false,
    }
}

/// Whether a number is that of a final class.
fn is_final(classes: &Classes, number: u32) -> bool
    ensures { result ≡ is_final classes.now number }
{
    match classes.as_slice().get(number as usize) {
        Some(class) => class.is_final,
        None => false,
    }
}

/// Whether the superclass of a class is an interface, or final.
fn extends_badly(classes: &Classes, class: &Class) -> bool
    ensures { result ≡ extends_badly classes.now (superclass_named class.now) }
{
    match class.superclass {
        Some(other) => is_interface(classes, other) || is_final(classes, other),
        None => false,
    }
}

/// Whether one of these superinterfaces is a class.
fn implements_badly(classes: &Classes, interfaces: &[u32]) -> bool
    ensures { result ≡ implements_badly classes.now interfaces.now }
{
    for other in interfaces {
        if !is_interface(classes, *other) {
            return true;
        }
    }
    false
}

/// Whether a class can't be in a hierarchy.
fn is_bad(classes: &Classes, above: &Ancestors, overriding: &Marks, number: u32) -> bool
    requires { number < length classes.now }
    ensures { result ≡ is_bad classes.now above.now overriding.now number }
{
    if above.has(number, number) || overriding.has(number) {
        return true;
    }
    let class = classes.get(number as usize);
    extends_badly(classes, class) || implements_badly(classes, class.interfaces.as_slice())
}

/// The first class that can't be in a hierarchy: one that is above itself, whose superclass is an interface or final, one of
/// whose superinterfaces is a class, or which overrides a final method (JVMS §5.3.5, §4.10). `OutOfMemory` where no memory was
/// to be had. Takes time in the methods, times the final ones of their signatures, and for each class in the parents of what is
/// above it, and memory in the square of the number of classes.
pub fn first_bad(
    alloc: Global,
    classes: &Classes,
    methods: &MethodTable,
) -> Result<Option<u32>, OutOfMemory>
    requires { AreClasses classes.now }
    ensures { IfOk result (IsFirstBad classes.now methods.now) }
{
    let above = Ancestors::of_parents(alloc, classes)?;
    let overriding = overriding(alloc, classes, methods)?;
    for number in 0..classes.len() as u32 {
        if is_bad(classes, &above, &overriding, number) {
            return Ok(Some(number));
        }
    }
    Ok(None)
}
