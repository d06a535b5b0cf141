// Where a member is found.
ghost use Rattle.std.specs.Prelude.{◌≡◌, ◌<◌, length, map, IfOk};
ghost use Rattle.std.specs.Option.{option_or};
ghost use Rattle.cb_hierarchy.specs.Members.{method_of};
ghost use Rattle.cb_hierarchy.specs.Resolution.{among_superinterfaces, first_of, first_some, method_of_class, method_of_interface, method_of_object, only_one, resolved_field, resolved_method};

use crate::specific::{most_specific_of, superinterface_methods};
use crate::{FieldTable, Hierarchy, MethodTable, Visibility};
use cb_plain::OutOfMemory;
use std::alloc::Global;

/// The field of a signature that is found in a class (JVMS §5.4.3.2). Takes expected time in what is above the class.
pub fn resolved_field(
    hierarchy: &Hierarchy,
    fields: &FieldTable,
    class: u32,
    signature: u32,
) -> Option<u32>
    requires { class < length hierarchy.now }
    ensures { result ≡ resolved_field hierarchy.now fields.now class signature }
{
    for number in hierarchy.lookup_order(class) {
        if let Some(field) = fields.declared(*number, signature) {
            return Some(field);
        }
    }
    None
}

/// The method of a signature that is found in a class or interface (JVMS §5.4.3.3, §5.4.3.4), where `object` is the class
/// `java/lang/Object`. `OutOfMemory` where no memory was to be had. Takes expected time in what is above the class, and in the
/// square of the number of superinterfaces that declare such a method.
pub fn resolved_method(
    alloc: Global,
    hierarchy: &Hierarchy,
    methods: &MethodTable,
    object: u32,
    class: u32,
    signature: u32,
) -> Result<Option<u32>, OutOfMemory>
    requires { class < length hierarchy.now }
    ensures { IfOk result (λ method. method ≡ resolved_method hierarchy.now methods.now object class signature) }
{
    if hierarchy.is_interface(class) {
        method_of_interface(alloc, hierarchy, methods, object, class, signature)
    } else {
        method_of_class(alloc, hierarchy, methods, class, signature)
    }
}

/// The method that is found in a class: in it or its superclasses, and then in its superinterfaces.
fn method_of_class(
    alloc: Global,
    hierarchy: &Hierarchy,
    methods: &MethodTable,
    class: u32,
    signature: u32,
) -> Result<Option<u32>, OutOfMemory>
    requires { class < length hierarchy.now }
    ensures { IfOk result (λ method. method ≡ method_of_class hierarchy.now methods.now class signature) }
{
    match first_declared(methods, hierarchy.upwards(class), signature) {
        Some(method) => Ok(Some(method)),
        None => among_superinterfaces(alloc, hierarchy, methods, class, signature),
    }
}

/// The method that is found in an interface: in it, among the public ones of `object`, and then in its superinterfaces.
fn method_of_interface(
    alloc: Global,
    hierarchy: &Hierarchy,
    methods: &MethodTable,
    object: u32,
    interface: u32,
    signature: u32,
) -> Result<Option<u32>, OutOfMemory>
    requires { interface < length hierarchy.now }
    ensures { IfOk result (λ method. method ≡ method_of_interface hierarchy.now methods.now object interface signature) }
{
    if let Some(method) = methods.declared(interface, signature) {
        return Ok(Some(method));
    }
    match method_of_object(methods, object, signature) {
        Some(method) => Ok(Some(method)),
        None => among_superinterfaces(alloc, hierarchy, methods, interface, signature),
    }
}

/// The first method of a signature that one of these classes declares.
fn first_declared(methods: &MethodTable, numbers: &[u32], signature: u32) -> Option<u32>
    ensures { result ≡ first_some (map (λ number. method_of methods.now number signature) numbers.now) }
{
    for number in numbers {
        if let Some(method) = methods.declared(*number, signature) {
            return Some(method);
        }
    }
    None
}

/// The method of a signature that `object` declares, if it is public and not static.
fn method_of_object(methods: &MethodTable, object: u32, signature: u32) -> Option<u32>
    ensures { result ≡ method_of_object methods.now object signature }
{
    let number = methods.declared(object, signature)?;
    let method = methods.get(number)?;
    if method.visibility == Visibility::Public && !method.is_static {
        Some(number)
    } else {
        None
    }
}

/// The method of a signature that is found in the superinterfaces of a class: the one that is maximally specific and not
/// abstract, or else the first.
fn among_superinterfaces(
    alloc: Global,
    hierarchy: &Hierarchy,
    methods: &MethodTable,
    class: u32,
    signature: u32,
) -> Result<Option<u32>, OutOfMemory>
    requires { class < length hierarchy.now }
    ensures { IfOk result (λ method. method ≡ among_superinterfaces hierarchy.now methods.now class signature) }
{
    let candidates = superinterface_methods(alloc, hierarchy, methods, class, signature)?;
    let specific = most_specific_of(alloc, hierarchy, methods, candidates.as_slice())?;
    Ok(chosen(specific.as_slice(), candidates.as_slice()))
}

/// The only one of the first, or else the first of the others.
fn chosen(specific: &[u32], candidates: &[u32]) -> Option<u32>
    ensures { result ≡ option_or (only_one specific.now) (first_of candidates.now) }
{
    match specific {
        [method] => Some(*method),
        _ => candidates.first().copied(),
    }
}
