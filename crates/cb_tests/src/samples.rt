// Hierarchies and members in words.
ghost use Rattle.std.specs.Prelude.{◌≡◌, ◌<◌, ◌++◌, ℕ, length, map, IfOk};
ghost use Rattle.std.specs.Bool.{OnTrue};
ghost use Rattle.std.specs.List.{AllByRecursion, Contains};
ghost use Rattle.cb_hierarchy.specs.Classes.{AreClasses, listed};
ghost use Rattle.cb_hierarchy.specs.Members.{AreMembers};

use cb_hierarchy::{
    Class, Classes, Declared, Field, FieldTable, Fields, Hierarchy, Method, MethodTable, Methods,
    Visibility, first_bad,
};
use cb_plain::Numbers;
use cb_rows::{Trouble, number_of};
use std::alloc::Global;

/// The numbers of words.
fn numbers(alloc: Global, words: &str) -> Result<Numbers, Trouble> {
    let mut numbers = Numbers::new(alloc);
    for word in words.split_whitespace() {
        numbers.push(number_of(word)?)?;
    }
    Ok(numbers)
}

/// The class of a word and numbers, in package 0: `object`, `class` with its superclass and its superinterfaces, or `interface` with its
/// superinterfaces, whose superclass is 0.
fn class(alloc: Global, words: &str) -> Result<Class, Trouble> {
    let (word, rest) = words.split_once(' ').unwrap_or((words, ""));
    let (superclass, rest) = match word {
        "object" => (None, rest),
        "interface" => (Some(0), rest),
        "class" => {
            let (superclass, rest) = rest.split_once(' ').unwrap_or((rest, ""));
            (Some(number_of(superclass)?), rest)
        }
        _ => return Err(Trouble::NotUnderstood),
    };
    Ok(Class {
        superclass,
        interfaces: numbers(alloc, rest)?,
        is_interface: word == "interface",
        is_final: false,
        package: 0,
    })
}

/// The classes of a text, with semicolons between them.
fn classes(alloc: Global, text: &str) -> Result<Classes, Trouble> {
    let mut classes = Classes::new(alloc);
    for words in text.split("; ") {
        classes.push(class(alloc, words)?)?;
    }
    Ok(classes)
}

/// Whether numbers are below a count.
fn are_below(numbers: &[u32], count: usize) -> bool
    ensures { OnTrue result ((number : ℕ) → Contains numbers.now number → number < count) }
{
    for number in numbers {
        if *number as usize >= count {
            return false;
        }
    }
    true
}

/// Whether what a class names is below a count.
fn is_below(class: &Class, count: usize) -> bool
    ensures { OnTrue result ((number : ℕ) → Contains (listed class.now.superclass ++ class.now.interfaces) number → number < count) }
{
    let Some(superclass) = class.superclass else {
        return are_below(class.interfaces.as_slice(), count);
    };
    if superclass as usize >= count {
        return false;
    }
    are_below(class.interfaces.as_slice(), count)
}

/// Whether the classes name just classes of the list.
fn are_classes(classes: &Classes) -> bool
    ensures { OnTrue result (AreClasses classes.now) }
{
    if classes.len() > u32::MAX as usize {
        return false;
    }
    for class in classes.as_slice() {
        if !is_below(class, classes.len()) {
            return false;
        }
    }
    true
}

/// A public method of a class and a signature.
fn method(class: u32, signature: u32) -> Method {
    Method {
        declared: Declared { class, signature },
        visibility: Visibility::Public,
        is_static: false,
        is_final: false,
        is_abstract: false,
    }
}

/// Whether methods have small signatures.
fn are_methods(methods: &[Method]) -> bool
    ensures { OnTrue result (AreMembers (map (λ method. method.declared) methods.now)) }
{
    if methods.len() > u32::MAX as usize {
        return false;
    }
    for method in methods {
        if method.declared.signature as usize >= methods.len() {
            return false;
        }
    }
    true
}

/// The methods of a table, each by its class and its signature.
pub(crate) fn methods(alloc: Global, rows: &[(u32, u32)]) -> Result<MethodTable, Trouble> {
    let mut methods = Methods::new(alloc);
    for (class, signature) in rows {
        methods.push(method(*class, *signature))?;
    }
    if are_methods(methods.as_slice()) {
        Ok(MethodTable::of(alloc, methods)?)
    } else {
        Err(Trouble::NotUnderstood)
    }
}

/// Whether fields have small signatures.
fn are_fields(fields: &[Field]) -> bool
    ensures { OnTrue result (AreMembers (map (λ field. field.declared) fields.now)) }
{
    if fields.len() > u32::MAX as usize {
        return false;
    }
    for field in fields {
        if field.declared.signature as usize >= fields.len() {
            return false;
        }
    }
    true
}

/// The fields of a table, each by its class, its signature, and whether it is static.
pub(crate) fn fields(alloc: Global, rows: &[(u32, u32, bool)]) -> Result<FieldTable, Trouble> {
    let mut fields = Fields::new(alloc);
    for (class, signature, is_static) in rows {
        fields.push(Field {
            declared: Declared {
                class: *class,
                signature: *signature,
            },
            is_static: *is_static,
        })?;
    }
    if are_fields(fields.as_slice()) {
        Ok(FieldTable::of(alloc, fields)?)
    } else {
        Err(Trouble::NotUnderstood)
    }
}

/// The first class of a text that can't be in a hierarchy, if there is one.
pub(crate) fn bad(
    alloc: Global,
    text: &str,
    methods: &MethodTable,
) -> Result<Option<u32>, Trouble> {
    let classes = classes(alloc, text)?;
    if !are_classes(&classes) {
        return Err(Trouble::NotUnderstood);
    }
    Ok(first_bad(alloc, &classes, methods)?)
}

/// The hierarchy of the classes of a text.
pub(crate) fn hierarchy(
    alloc: Global,
    text: &str,
    methods: &MethodTable,
) -> Result<Hierarchy, Trouble> {
    let classes = classes(alloc, text)?;
    if !are_classes(&classes) {
        return Err(Trouble::NotUnderstood);
    }
    match first_bad(alloc, &classes, methods)? {
        None => Ok(Hierarchy::of(alloc, classes)?),
        Some(_) => Err(Trouble::Refused),
    }
}
