// How classes stand to each other.
ghost use Rattle.std.specs.Prelude.{◌≡◌, ◌<◌, ◌==◌, drop, length, IfSome};
ghost use Rattle.std.specs.List.{list_any};
ghost use Rattle.cb_hierarchy.specs.Orders.{upwards};
ghost use Rattle.cb_link.specs.Subtypes.{between, interface_at};

use crate::resolver::Resolver;
use cb_hierarchy::Hierarchy;

impl Resolver {
    /// Whether a class is there and is an interface.
    pub(crate) fn is_interface(&self, class: Option<u32>) -> bool
        ensures { result ≡ interface_at self.now class }
    {
        match class {
            Some(number) => {
                (number as usize) < self.hierarchy.len()
                    && self.hierarchy.class(number).is_interface
            }
            None => false,
        }
    }

    /// Whether two classes are there, and the one is the other or below it.
    pub(crate) fn is_below(&self, one: Option<u32>, other: Option<u32>) -> bool
        requires one { IfSome one (λ number. number < length self.now) }
        requires other { IfSome other (λ number. number < length self.now) }
        ensures { result ≡ between self.now one other }
    {
        match (one, other) {
            (Some(one), Some(other)) => self.hierarchy.is_subclass(one, other),
            _ => false,
        }
    }
}

/// Whether a class is the superclass of another one, or that one's superclass, and so on.
pub(crate) fn is_above(hierarchy: &Hierarchy, class: u32, wanted: u32) -> bool
    requires { class < length hierarchy.now }
    ensures { result ≡ list_any (λ number. number == wanted) (drop 1 (upwards hierarchy.now class)) }
{
    match hierarchy.upwards(class).split_first() {
        Some((_, above)) => above.iter().any(|number| *number == wanted),
        None => false,
    }
}
