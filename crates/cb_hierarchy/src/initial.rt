// The classes that are initialised before a class.
ghost use Rattle.std.specs.Prelude.{◌≡◌, ◌<◌, ◌&&◌, ◌++◌, not, ℕ, filter, length, map, nat_eq, slice_get, IfOk, OnOk, Some};
ghost use Rattle.std.specs.HashSet.{contains};
ghost use Rattle.std.specs.List.{Contains};
ghost use Rattle.cb_hierarchy.specs.InnerBeginnings.{NameBelow, before_by};
ghost use Rattle.cb_hierarchy.specs.Classes.{listed};
ghost use Rattle.cb_hierarchy.specs.Initial.{declares_body, enumerated_by, initialised_before};
ghost use Rattle.cb_hierarchy.specs.Inner.{list_at};

use crate::distinct::Distinct;
use crate::orders::append_lists;
use crate::rule::{Rule, lists_by};
use crate::{Class, Classes, Hierarchy, Method, MethodTable};
use cb_plain::{List, Numbers, OutOfMemory};
use std::alloc::Global;
use std::collections::HashSet;

/// For each class those that are initialised before it, in order (JVMS §5.5, step 7). `OutOfMemory` where no memory was to be
/// had. Takes time in the methods, and for each class in what is above it.
pub fn initialised_before(
    alloc: Global,
    hierarchy: &Hierarchy,
    methods: &MethodTable,
) -> Result<List<Numbers>, OutOfMemory>
    ensures length { IfOk result (λ lists. length lists ≡ length hierarchy.now) }
    ensures each { IfOk result (λ lists. (class : ℕ) → class < length hierarchy.now
        → slice_get lists class ≡ Some (initialised_before hierarchy.now methods.now class)) }
{
    let classes = hierarchy.classes();
    let order = hierarchy.parents_first();
    let enumerated = lists_by(alloc, classes, order, &Enumerated { classes })?;
    let bodies = bodies(alloc, methods)?;
    all_before(alloc, classes.as_slice(), enumerated.as_slice(), &bodies)
}

/// The lists of the superinterfaces, each number once, and then the interface.
#[derive(Clone, Copy, Debug)]
struct Enumerated<'a> {
    classes: &'a Classes,
}

impl<'a> Rule for Enumerated<'a> {
    ghost classes = { λ rule. rule.classes.now };

    ghost rule = { λ rule. enumerated_by rule.classes.now };

    fn list(&self, alloc: Global, number: u32, lists: &[Numbers]) -> Result<Numbers, OutOfMemory> {
        let mut found = Distinct::new(alloc)?;
        let class = self.classes.get(number as usize);
        append_lists(&mut found, class.interfaces.as_slice(), lists)?;
        found.push(number)?;
        Ok(found.numbers)
    }
}

/// The classes that declare a method that is neither abstract nor static.
fn bodies(alloc: Global, methods: &MethodTable) -> Result<HashSet<u32>, OutOfMemory>
    ensures { IfOk result (λ bodies. (class : ℕ) → contains nat_eq bodies class ≡ declares_body methods.now class) }
{
    let mut bodies = HashSet::new(alloc);
    for number in 0..methods.count() {
        let method = methods.method(number);
        if is_body(method) {
            bodies.insert(method.declared.class)?;
        }
    }
    Ok(bodies)
}

/// Whether a method is neither abstract nor static.
fn is_body(method: &Method) -> bool
    ensures { result ≡ (not method.now.is_abstract && not method.now.is_static) }
{
    !method.is_abstract && !method.is_static
}

/// What is initialised before each class, by the lists of the interfaces.
fn all_before(
    alloc: Global,
    classes: &[Class],
    enumerated: &[Numbers],
    bodies: &HashSet<u32>,
) -> Result<List<Numbers>, OutOfMemory>
    requires { NameBelow classes.now (length enumerated.now) }
    ensures { IfOk result (λ lists. lists ≡ map (before_by (contains nat_eq bodies.now) (list_at enumerated.now)) classes.now) }
{
    let mut lists = List::with_capacity(alloc, classes.len())?;
    for class in classes {
        let list = before(alloc, class, enumerated, bodies)?;
        lists.push(list)?;
    }
    Ok(lists)
}

/// What is initialised before a class, by the lists of the interfaces.
fn before(
    alloc: Global,
    class: &Class,
    enumerated: &[Numbers],
    bodies: &HashSet<u32>,
) -> Result<Numbers, OutOfMemory>
    requires { (number : ℕ) → Contains class.now.interfaces number → number < length enumerated.now }
    ensures { IfOk result (λ list. list ≡ before_by (contains nat_eq bodies.now) (list_at enumerated.now) class.now) }
{
    if class.is_interface {
        return Ok(Numbers::new(alloc));
    }
    let mut list = superclass_of(alloc, class)?;
    let mut found = Distinct::new(alloc)?;
    append_lists(&mut found, class.interfaces.as_slice(), enumerated)?;
    add_among(bodies, found.numbers.as_slice(), &mut list)?;
    Ok(list)
}

/// The superclass of a class, if it has one.
fn superclass_of(alloc: Global, class: &Class) -> Result<Numbers, OutOfMemory>
    ensures { IfOk result (λ list. list ≡ listed class.now.superclass) }
{
    let mut list = Numbers::new(alloc);
    if let Some(superclass) = class.superclass {
        list.push(superclass)?;
    }
    Ok(list)
}

/// Adds those of some classes that are in a set.
fn add_among(bodies: &HashSet<u32>, classes: &[u32], list: &mut Numbers) -> Result<(), OutOfMemory>
    ensures { OnOk result (list.new ≡ list.old ++ filter (contains nat_eq bodies.now) classes.now) }
{
    for class in classes {
        if bodies.contains(class) {
            list.push(*class)?;
        }
    }
    Ok(())
}
