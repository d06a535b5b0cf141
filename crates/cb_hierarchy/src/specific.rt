// The maximally-specific methods of superinterfaces.
ghost use Rattle.std.specs.Prelude.{◌≡◌, ◌<◌, ◌∷◌, ◌++◌, [], drop, filter, length, not, IfOk, OnOk};
ghost use Rattle.cb_hierarchy.specs.Resolution.{is_declared_below, is_inherited, method_is, most_specific, most_specific_of, superinterface_methods};
ghost use Rattle.cb_hierarchy.specs.InnerSpecific.{inherited_of, is_specific};

use crate::{Hierarchy, MethodTable, Visibility};
use cb_plain::{Numbers, OutOfMemory};
use std::alloc::Global;

/// The methods of a signature that superinterfaces of a class declare and that are inherited, in the order of lookup.
/// `OutOfMemory` where no memory was to be had. Takes expected time in what is above the class.
pub(crate) fn superinterface_methods(
    alloc: Global,
    hierarchy: &Hierarchy,
    methods: &MethodTable,
    class: u32,
    signature: u32,
) -> Result<Numbers, OutOfMemory>
    requires { class < length hierarchy.now }
    ensures { IfOk result (λ found. found ≡ superinterface_methods hierarchy.now methods.now class signature) }
{
    let mut found = Numbers::new(alloc);
    for number in all_but_first(hierarchy.lookup_order(class)) {
        add_inherited(hierarchy, methods, *number, signature, &mut found)?;
    }
    Ok(found)
}

/// Those of some methods that are maximally specific and not abstract. `OutOfMemory` where no memory was to be had. Takes time
/// in the square of their number.
pub(crate) fn most_specific_of(
    alloc: Global,
    hierarchy: &Hierarchy,
    methods: &MethodTable,
    candidates: &[u32],
) -> Result<Numbers, OutOfMemory>
    ensures { IfOk result (λ found. found ≡ filter (method_is methods.now (λ method. not method.is_abstract)) (most_specific_of hierarchy.now methods.now candidates.now)) }
{
    let mut found = Numbers::new(alloc);
    for candidate in candidates {
        if has_body(methods, *candidate)
            && is_specific(hierarchy, methods, candidates, *candidate)
        {
            found.push(*candidate)?;
        }
    }
    Ok(found)
}

/// All but the first.
fn all_but_first(order: &[u32]) -> &[u32]
    ensures { result.now ≡ drop 1 order.now }
{
    match order {
        [] => order,
        [_, above @ ..] => above,
    }
}

/// Adds the method of a signature that a class declares, if that is an interface and the method is inherited.
fn add_inherited(
    hierarchy: &Hierarchy,
    methods: &MethodTable,
    number: u32,
    signature: u32,
    found: &mut Numbers,
) -> Result<(), OutOfMemory>
    ensures { OnOk result (found.new ≡ found.old ++ inherited_of hierarchy.now methods.now signature (number ∷ [])) }
{
    if hierarchy.is_interface(number) {
        if let Some(method) = methods.declared(number, signature) {
            if is_inherited(methods, method) {
                found.push(method)?;
            }
        }
    }
    Ok(())
}

/// Whether a method is neither private nor static.
fn is_inherited(methods: &MethodTable, method: u32) -> bool
    ensures { result ≡ method_is methods.now is_inherited method }
{
    match methods.get(method) {
        Some(method) => method.visibility != Visibility::Private && !method.is_static,
        None => false,
    }
}

/// Whether a method isn't abstract.
fn has_body(methods: &MethodTable, method: u32) -> bool
    ensures { result ≡ method_is methods.now (λ method. not method.is_abstract) method }
{
    match methods.get(method) {
        Some(method) => !method.is_abstract,
        None => false,
    }
}

/// Whether none of these methods is declared in a subinterface of that of a method.
fn is_specific(
    hierarchy: &Hierarchy,
    methods: &MethodTable,
    candidates: &[u32],
    method: u32,
) -> bool
    ensures { result ≡ is_specific hierarchy.now methods.now candidates.now method }
{
    for other in candidates {
        if is_declared_below(hierarchy, methods, *other, method) {
            return false;
        }
    }
    true
}

/// Whether a method is declared in a proper subclass or subinterface of that of another.
fn is_declared_below(hierarchy: &Hierarchy, methods: &MethodTable, one: u32, other: u32) -> bool
    ensures { result ≡ is_declared_below hierarchy.now methods.now one other }
{
    match (methods.get(one), methods.get(other)) {
        (Some(one), Some(other)) => hierarchy.is_below(one.declared.class, other.declared.class),
        _ => false,
    }
}
