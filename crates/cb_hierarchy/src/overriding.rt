// The classes that override a final method.
ghost use Rattle.std.specs.Prelude.{◌≡◌, ◌<◌, ℕ, ◌+◌, length, IfOk, IsTrue, OnOk, vec_len};
ghost use Rattle.std.specs.List.{Contains};
ghost use Rattle.cb_hierarchy.specs.Bad.{OverridesFinal};
ghost use Rattle.cb_hierarchy.specs.Classes.{AreClasses};
ghost use Rattle.cb_hierarchy.specs.InnerFinals.{AreFinals, is_final_of, overrides_final, overrides_some, overrides_this};
ghost use Rattle.cb_hierarchy.specs.Inner.{has};
ghost use Rattle.cb_hierarchy.specs.Selection.{is_seen};

use crate::ancestors::Ancestors;
use crate::marks::Marks;
use crate::rule::empty_lists;
use crate::{Classes, Method, MethodTable, Visibility};
use cb_plain::{Numbers, OutOfMemory};
use std::alloc::Global;

/// Adds a method to the list of its signature, if it is final and not static.
fn add_final(
    lists: &mut Vec<Numbers>,
    methods: &MethodTable,
    number: u32,
) -> Result<(), OutOfMemory>
    requires number { number < length methods.now }
    requires lists { vec_len lists.old ≡ length methods.now }
    ensures length { OnOk result (vec_len lists.new ≡ length methods.now) }
    ensures lists { AreFinals methods.now number lists.old.items → OnOk result (AreFinals methods.now (number + 1) lists.new.items) }
{
    let method = methods.method(number);
    if method.is_final && !method.is_static {
        let signature = methods.signature(number);
        lists[signature as usize].push(number)?;
    }
    Ok(())
}

/// For each signature the final methods that aren't static.
fn finals(alloc: Global, methods: &MethodTable) -> Result<Vec<Numbers>, OutOfMemory>
    ensures length { IfOk result (λ lists. vec_len lists ≡ length methods.now) }
    ensures lists { IfOk result (λ lists. AreFinals methods.now (length methods.now) lists.items) }
{
    let mut lists = empty_lists(alloc, methods.len())?;
    for number in 0..methods.count() {
        add_final(&mut lists, methods, number)?;
    }
    Ok(lists)
}

/// Whether a method of a visibility can be overridden by methods of a class, where `holder` declares it (JVMS §5.4.5).
fn is_seen(classes: &Classes, visibility: Visibility, holder: u32, class: u32) -> bool
    ensures { result ≡ is_seen classes.now visibility holder class }
{
    match visibility {
        Visibility::Public | Visibility::Protected => true,
        Visibility::Private => false,
        Visibility::Package => {
            let classes = classes.as_slice();
            match (classes.get(holder as usize), classes.get(class as usize)) {
                (Some(one), Some(other)) => one.package == other.package,
                _ => false,
            }
        }
    }
}

/// Whether a method overrides openly one of a superclass.
fn overrides_this(classes: &Classes, superclasses: &Ancestors, own: &Method, other: &Method) -> bool
    ensures { result ≡ overrides_this classes.now superclasses.now own.now other.now }
{
    let class = own.declared.class;
    let holder = other.declared.class;
    superclasses.has(class, holder)
        && own.visibility != Visibility::Private
        && is_seen(classes, other.visibility, holder, class)
}

/// Whether it overrides openly one of these.
fn overrides_some(
    classes: &Classes,
    methods: &MethodTable,
    superclasses: &Ancestors,
    own: &Method,
    others: &[u32],
) -> bool
    requires { (other : ℕ) → Contains others.now other → other < length methods.now }
    ensures { result ≡ overrides_some classes.now methods.now superclasses.now own.now others.now }
{
    for other in others {
        if overrides_this(classes, superclasses, own, methods.method(*other)) {
            return true;
        }
    }
    false
}

/// Whether a method overrides openly one of those in the list of its signature.
fn overrides_final(
    classes: &Classes,
    methods: &MethodTable,
    superclasses: &Ancestors,
    lists: &[Numbers],
    number: u32,
) -> bool
    requires number { number < length methods.now }
    requires length { length lists.now ≡ length methods.now }
    requires lists { AreFinals methods.now (length methods.now) lists.now }
    ensures { result ≡ overrides_final classes.now methods.now superclasses.now lists.now number }
{
    let own = methods.method(number);
    if own.is_static {
        return false;
    }
    let others = lists[methods.signature(number) as usize].as_slice();
    overrides_some(classes, methods, superclasses, own, others)
}

/// The classes that override a final method of a superclass (JVMS §4.10). Takes time in the methods, times the final ones of
/// their signatures.
pub(crate) fn overriding(
    alloc: Global,
    classes: &Classes,
    methods: &MethodTable,
) -> Result<Marks, OutOfMemory>
    requires { AreClasses classes.now }
    ensures { IfOk result (λ marks. (class : ℕ) → (IsTrue (has marks class) → OverridesFinal classes.now methods.now class)
        × (OverridesFinal classes.now methods.now class → IsTrue (has marks class))) }
{
    let superclasses = Ancestors::of_superclasses(alloc, classes)?;
    let lists = finals(alloc, methods)?;
    let mut marks = Marks::none(alloc, classes.len())?;
    for number in 0..methods.count() {
        if overrides_final(classes, methods, &superclasses, lists.as_slice(), number) {
            marks.add(methods.method(number).declared.class)?;
        }
    }
    Ok(marks)
}
