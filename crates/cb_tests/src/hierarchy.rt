// A small hierarchy, with ample memory.
use crate::samples::{bad, fields, hierarchy, methods};
use cb_hierarchy::{
    FieldTable, Hierarchy, MethodTable, Selection, initialised_before, layouts, resolved_field,
    resolved_method,
};
use cb_plain::{List, Numbers};
use cb_rows::{Trouble, number_of};
use std::alloc::Global;

/// Object; I; J extends I; A implements I; B extends A implements J; K extends I; C implements J, K.
const SEVEN: &str =
    "object; interface; interface 1; class 0 1; class 3 2; interface 1; class 0 2 5";

/// I.m, J.m, Object.toString, A.toString, K.m, where m has the signature 0 and toString 1.
const METHODS: &[(u32, u32)] = &[(1, 0), (2, 0), (0, 1), (3, 1), (5, 0)];

/// A static field of I, two fields of A and one of B, of which each has the signature of another.
const FIELDS: &[(u32, u32, bool)] = &[(1, 0, true), (3, 0, false), (3, 1, false), (4, 1, false)];

pub(crate) fn tell(
    alloc: Global,
    told: &mut String,
    table: &str,
    row: &str,
) -> Result<(), Trouble> {
    match table {
        "bad" => tell_bad(alloc, told, row),
        _ => tell_seven(alloc, told, table, row),
    }
}

/// The first class that can't be in a hierarchy without methods.
fn tell_bad(alloc: Global, told: &mut String, row: &str) -> Result<(), Trouble> {
    let none = methods(alloc, &[])?;
    let found = bad(alloc, row, &none)?;
    Ok(write!(told, "{found:?}")?)
}

/// What there is to tell of the hierarchy of seven classes.
fn tell_seven(alloc: Global, told: &mut String, table: &str, row: &str) -> Result<(), Trouble> {
    let methods = methods(alloc, METHODS)?;
    let hierarchy = hierarchy(alloc, SEVEN, &methods)?;
    tell_known(alloc, told, &hierarchy, &methods, table, row)
}

/// What there is to tell of a hierarchy and its methods.
fn tell_known(
    alloc: Global,
    told: &mut String,
    hierarchy: &Hierarchy,
    methods: &MethodTable,
    table: &str,
    row: &str,
) -> Result<(), Trouble> {
    match table {
        "counts" => tell_counts(told, hierarchy),
        "class" => tell_class(told, hierarchy, row),
        "subclass" => tell_subclass(told, hierarchy, row),
        "method" => tell_method(alloc, told, hierarchy, methods, row),
        "declared method" => tell_declared(told, methods, row),
        "selected" => tell_selected(alloc, told, hierarchy, methods, row),
        "initialised before" => tell_before(alloc, told, hierarchy, methods, row),
        _ => tell_fields(alloc, told, hierarchy, table, row),
    }
}

/// How many classes there are, told twice.
fn tell_counts(told: &mut String, hierarchy: &Hierarchy) -> Result<(), Trouble> {
    Ok(write!(told, "{} {}", hierarchy.len(), hierarchy.classes().len())?)
}

/// The two numbers of a row.
fn pair(row: &str) -> Result<(u32, u32), Trouble> {
    let (one, other) = row.split_once(' ').ok_or(Trouble::NotUnderstood)?;
    Ok((number_of(one)?, number_of(other)?))
}

/// Whether a class is an interface, the classes upwards, and those in which a member is looked up.
fn tell_class(told: &mut String, hierarchy: &Hierarchy, row: &str) -> Result<(), Trouble> {
    let class: u32 = number_of(row)?;
    if class as usize >= hierarchy.len() {
        return Err(Trouble::NotUnderstood);
    }
    write!(told, "{}", hierarchy.class(class).is_interface)?;
    write!(told, " {:?}", hierarchy.upwards(class))?;
    Ok(write!(told, " {:?}", hierarchy.lookup_order(class))?)
}

/// Whether the first class is below the second one, or that one.
fn tell_subclass(told: &mut String, hierarchy: &Hierarchy, row: &str) -> Result<(), Trouble> {
    let (class, other) = pair(row)?;
    if class as usize >= hierarchy.len() || other as usize >= hierarchy.len() {
        return Err(Trouble::NotUnderstood);
    }
    Ok(write!(told, "{}", hierarchy.is_subclass(class, other))?)
}

/// The method that a class and a signature lead to.
fn tell_method(
    alloc: Global,
    told: &mut String,
    hierarchy: &Hierarchy,
    methods: &MethodTable,
    row: &str,
) -> Result<(), Trouble> {
    let (class, signature) = pair(row)?;
    if class as usize >= hierarchy.len() {
        return Err(Trouble::NotUnderstood);
    }
    let found = resolved_method(alloc, hierarchy, methods, 0, class, signature)?;
    Ok(write!(told, "{found:?}")?)
}

/// The method that a class itself declares.
fn tell_declared(told: &mut String, methods: &MethodTable, row: &str) -> Result<(), Trouble> {
    let (class, signature) = pair(row)?;
    Ok(write!(told, "{:?}", methods.declared(class, signature))?)
}

/// The method that is selected on an object of a class for a resolved one.
fn tell_selected(
    alloc: Global,
    told: &mut String,
    hierarchy: &Hierarchy,
    methods: &MethodTable,
    row: &str,
) -> Result<(), Trouble> {
    let (class, method) = pair(row)?;
    let selection = Selection::of(alloc, hierarchy, methods)?;
    if class as usize >= hierarchy.len() || method as usize >= methods.len() {
        return Err(Trouble::NotUnderstood);
    }
    Ok(write!(told, "{:?}", selection.select(class, method))?)
}

/// The list of a class.
fn push_list(told: &mut String, lists: &List<Numbers>, row: &str) -> Result<(), Trouble> {
    let class = number_of(row)?;
    if class >= lists.len() {
        return Err(Trouble::NotUnderstood);
    }
    Ok(write!(told, "{:?}", lists.get(class).as_slice())?)
}

/// The classes that are initialised before a class.
fn tell_before(
    alloc: Global,
    told: &mut String,
    hierarchy: &Hierarchy,
    methods: &MethodTable,
    row: &str,
) -> Result<(), Trouble> {
    let lists = initialised_before(alloc, hierarchy, methods)?;
    push_list(told, &lists, row)
}

/// What there is to tell of the four fields.
fn tell_fields(
    alloc: Global,
    told: &mut String,
    hierarchy: &Hierarchy,
    table: &str,
    row: &str,
) -> Result<(), Trouble> {
    let fields = fields(alloc, FIELDS)?;
    match table {
        "field" => tell_field(told, hierarchy, &fields, row),
        "declared field" => tell_declared_field(told, &fields, row),
        "layout" => tell_layout(alloc, told, hierarchy, &fields, row),
        _ => Err(Trouble::NotUnderstood),
    }
}

/// The field that a class and a signature lead to.
fn tell_field(
    told: &mut String,
    hierarchy: &Hierarchy,
    fields: &FieldTable,
    row: &str,
) -> Result<(), Trouble> {
    let (class, signature) = pair(row)?;
    if class as usize >= hierarchy.len() {
        return Err(Trouble::NotUnderstood);
    }
    let found = resolved_field(hierarchy, fields, class, signature);
    Ok(write!(told, "{found:?}")?)
}

/// The field that a class itself declares, of how many.
fn tell_declared_field(told: &mut String, fields: &FieldTable, row: &str) -> Result<(), Trouble> {
    let (class, signature) = pair(row)?;
    let found = fields.declared(class, signature);
    Ok(write!(told, "{found:?} of {}", fields.len())?)
}

/// The fields of objects of a class.
fn tell_layout(
    alloc: Global,
    told: &mut String,
    hierarchy: &Hierarchy,
    fields: &FieldTable,
    row: &str,
) -> Result<(), Trouble> {
    let lists = layouts(alloc, hierarchy, fields)?;
    push_list(told, &lists, row)
}
