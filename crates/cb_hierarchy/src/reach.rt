// The methods of a class and its superclasses that override a resolved one.
ghost use Rattle.std.specs.Prelude.{◌≡◌, not, slice_get};
ghost use Rattle.cb_hierarchy.specs.InnerReaching.{can_override, entry_of, is_of_interface, is_shown, opens, reach_class, reach_interface, reach_more, reach_own};
ghost use Rattle.cb_hierarchy.specs.Resolution.{is_private, method_is};
ghost use Rattle.cb_hierarchy.specs.Selection.{is_seen};

use crate::entry::{Entry, Reached};
use crate::{Hierarchy, Method, MethodTable, Visibility};

/// The entry of a class, by the method upwards and what its superinterfaces have.
pub(crate) fn entry_of(methods: &MethodTable, reached: Option<Reached>, among: Entry) -> Entry
    ensures { result ≡ entry_of methods.now reached among }
{
    match reached {
        Some(reached) => Entry::Upwards {
            method: reached.method,
            is_abstract: is_abstract(methods, reached.method),
            is_open: reached.is_open,
        },
        None => among,
    }
}

/// Whether a method is abstract.
pub(crate) fn is_abstract(methods: &MethodTable, method: u32) -> bool
    ensures { result ≡ method_is methods.now (λ own. own.is_abstract) method }
{
    match methods.get(method) {
        Some(method) => method.is_abstract,
        None => false,
    }
}

/// What is reached from a class, where this is the method that it declares, and what is reached from its superclass.
pub(crate) fn reach_own(
    hierarchy: &Hierarchy,
    methods: &MethodTable,
    resolved: u32,
    own: Option<u32>,
    above: Option<Reached>,
) -> Option<Reached>
    ensures { result ≡ reach_own hierarchy.now methods.now resolved own above }
{
    match own {
        Some(method) => {
            if is_instance(methods, method) {
                reach_more(hierarchy, methods, resolved, method, above)
            } else {
                above
            }
        }
        None => above,
    }
}

/// Whether a method isn't static.
pub(crate) fn is_instance(methods: &MethodTable, method: u32) -> bool
    ensures { result ≡ method_is methods.now (λ own. not own.is_static) method }
{
    match methods.get(method) {
        Some(method) => !method.is_static,
        None => false,
    }
}

/// What is reached with one method more.
fn reach_more(
    hierarchy: &Hierarchy,
    methods: &MethodTable,
    resolved: u32,
    method: u32,
    above: Option<Reached>,
) -> Option<Reached>
    ensures { result ≡ reach_more hierarchy.now methods.now resolved method above }
{
    if is_of_interface(hierarchy, methods, resolved) {
        reach_interface(methods, method, above)
    } else {
        reach_class(hierarchy, methods, resolved, method, above)
    }
}

/// Whether a method is declared by an interface.
fn is_of_interface(hierarchy: &Hierarchy, methods: &MethodTable, method: u32) -> bool
    ensures { result ≡ is_of_interface hierarchy.now methods.now method }
{
    match methods.get(method) {
        Some(method) => hierarchy.is_interface(method.declared.class),
        None => false,
    }
}

/// What is reached where a method of an interface was resolved.
fn reach_interface(methods: &MethodTable, method: u32, above: Option<Reached>) -> Option<Reached>
    ensures { result ≡ reach_interface methods.now method above }
{
    if is_not_private(methods, method) {
        Some(Reached {
            method,
            is_open: false,
        })
    } else {
        above
    }
}

/// Whether a method isn't private.
fn is_not_private(methods: &MethodTable, method: u32) -> bool
    ensures { result ≡ method_is methods.now (λ own. not (is_private own.visibility)) method }
{
    match methods.get(method) {
        Some(method) => method.visibility != Visibility::Private,
        None => false,
    }
}

/// What is reached where a method of a class was resolved.
fn reach_class(
    hierarchy: &Hierarchy,
    methods: &MethodTable,
    resolved: u32,
    method: u32,
    above: Option<Reached>,
) -> Option<Reached>
    ensures { result ≡ reach_class hierarchy.now methods.now resolved method above }
{
    match above {
        Some(reached) => {
            let is_open = reached.is_open || opens(hierarchy, methods, method, resolved);
            if method == resolved
                || can_override(hierarchy, methods, reached.is_open, method, resolved)
            {
                Some(Reached { method, is_open })
            } else {
                Some(Reached {
                    method: reached.method,
                    is_open,
                })
            }
        }
        None => {
            if method == resolved {
                Some(Reached {
                    method,
                    is_open: false,
                })
            } else {
                None
            }
        }
    }
}

/// Whether a public or protected method is of the package of another.
fn opens(hierarchy: &Hierarchy, methods: &MethodTable, one: u32, other: u32) -> bool
    ensures { result ≡ opens hierarchy.now (slice_get methods.now one) (slice_get methods.now other) }
{
    match (methods.get(one), methods.get(other)) {
        (Some(one), Some(other)) => {
            is_shown(one.visibility)
                && hierarchy.in_one_package(other.declared.class, one.declared.class)
        }
        _ => false,
    }
}

/// Whether a method of a visibility is public or protected.
fn is_shown(visibility: Visibility) -> bool
    ensures { result ≡ is_shown visibility }
{
    match visibility {
        Visibility::Public | Visibility::Protected => true,
        Visibility::Package | Visibility::Private => false,
    }
}

/// Whether a method overrides another one, where that is open or not.
fn can_override(
    hierarchy: &Hierarchy,
    methods: &MethodTable,
    is_open: bool,
    one: u32,
    other: u32,
) -> bool
    ensures { result ≡ can_override hierarchy.now is_open (slice_get methods.now one) (slice_get methods.now other) }
{
    match (methods.get(one), methods.get(other)) {
        (Some(one), Some(other)) => {
            one.visibility != Visibility::Private
                && if is_open {
                    other.visibility != Visibility::Private
                } else {
                    is_seen(hierarchy, other, one.declared.class)
                }
        }
        _ => false,
    }
}

/// Whether a method can be overridden by methods of a class.
fn is_seen(hierarchy: &Hierarchy, method: &Method, class: u32) -> bool
    ensures { result ≡ is_seen hierarchy.now method.now.visibility method.now.declared.class class }
{
    match method.visibility {
        Visibility::Public | Visibility::Protected => true,
        Visibility::Package => hierarchy.in_one_package(method.declared.class, class),
        Visibility::Private => false,
    }
}
