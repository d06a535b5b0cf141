// Methods that are selected from a class upwards, where no object has a say.
ghost use Rattle.std.specs.Prelude.{◌≡◌, ◌<◌, length, IfOk};
ghost use Rattle.cb_hierarchy.specs.Inner.{of_objects};
ghost use Rattle.cb_hierarchy.specs.Members.{method_of};
ghost use Rattle.cb_hierarchy.specs.Resolution.{first_of, most_specific};
ghost use Rattle.cb_hierarchy.specs.Selection.{declared_upwards, found, found_among, selected_from};

use crate::reach::{is_abstract, is_instance};
use crate::specific::{most_specific_of, superinterface_methods};
use crate::{Hierarchy, MethodTable, Selected};
use cb_plain::OutOfMemory;
use std::alloc::Global;

/// What a method that was found comes to: it is selected, unless it is abstract.
pub fn as_selected(methods: &MethodTable, method: u32) -> Selected
    ensures { result ≡ found methods.now method }
{
    if is_abstract(methods, method) {
        Selected::Abstract
    } else {
        Selected::Method(method)
    }
}

/// The method of a signature that is selected from a class upwards, the nearest first, where a private one counts too, and else
/// of the superinterfaces (JVMS §6.5 invokespecial). `OutOfMemory` where no memory was to be had. Takes expected time in what is
/// above the class, and in the square of the number of superinterfaces that declare such a method.
pub fn selected_from(
    alloc: Global,
    hierarchy: &Hierarchy,
    methods: &MethodTable,
    class: u32,
    signature: u32,
) -> Result<Selected, OutOfMemory>
    requires { class < length hierarchy.now }
    ensures { IfOk result (λ selected. selected
        ≡ selected_from hierarchy.now methods.now class signature) }
{
    match first_upwards(hierarchy, methods, class, signature) {
        Some(method) => Ok(as_selected(methods, method)),
        None => selected_among(alloc, hierarchy, methods, class, signature),
    }
}

/// What the maximally-specific methods of a signature that superinterfaces of a class have, and that aren't abstract, come to
/// (JVMS §5.4.3.3). `OutOfMemory` where no memory was to be had. Takes expected time in what is above the class, and in the
/// square of the number of superinterfaces that declare such a method.
pub fn selected_among(
    alloc: Global,
    hierarchy: &Hierarchy,
    methods: &MethodTable,
    class: u32,
    signature: u32,
) -> Result<Selected, OutOfMemory>
    requires { class < length hierarchy.now }
    ensures { IfOk result (λ selected. selected ≡ found_among
        (most_specific hierarchy.now methods.now class signature)) }
{
    let candidates = superinterface_methods(alloc, hierarchy, methods, class, signature)?;
    let specific = most_specific_of(alloc, hierarchy, methods, candidates.as_slice())?;
    Ok(only(specific.as_slice()))
}

/// What some methods come to that aren't abstract.
fn only(specific: &[u32]) -> Selected
    ensures { result ≡ found_among specific.now }
{
    match specific {
        [] => Selected::Abstract,
        [method] => Selected::Method(*method),
        _ => Selected::Several,
    }
}

/// The first method of a signature that a class or a superclass declares, the nearest first, and that isn't static.
fn first_upwards(
    hierarchy: &Hierarchy,
    methods: &MethodTable,
    class: u32,
    signature: u32,
) -> Option<u32>
    requires { class < length hierarchy.now }
    ensures { result ≡ first_of (declared_upwards hierarchy.now methods.now class signature) }
{
    for number in hierarchy.upwards(class) {
        if let Some(method) = of_objects(methods, *number, signature) {
            return Some(method);
        }
    }
    None
}

/// The method of a signature that a class declares, unless it is static.
fn of_objects(methods: &MethodTable, class: u32, signature: u32) -> Option<u32>
    ensures { result ≡ of_objects methods.now (method_of methods.now class signature) }
{
    let method = methods.declared(class, signature)?;
    if is_instance(methods, method) {
        Some(method)
    } else {
        None
    }
}
