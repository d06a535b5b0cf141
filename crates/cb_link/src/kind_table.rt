// What is asked of kinds.
ghost use Rattle.std.specs.Prelude.{◌≡◌, map, IfOk};
ghost use Rattle.cb_io.specs.Utf8.{utf8};
ghost use Rattle.cb_kinds.specs.Basics.{kind_number};
ghost use Rattle.cb_link.specs.InnerKinds.{inner_name, row_with};
ghost use Rattle.cb_link.specs.Numbers.{name_of};
ghost use Rattle.cb_link.specs.InnerTables.{IsKindTable};

use crate::base::Base;
use crate::kind_row::{KindRow, parts_of, row_of};
use crate::ranked::name_of;
use crate::resolver::Resolver;
use cb_classfile::ClassFile;
use cb_io::text_of;
use cb_kinds::{TextNumbers, Texts, kind_number};
use cb_plain::{List, Name, Names, Numbers, OutOfMemory};
use std::alloc::Global;

/// What is asked of kinds, by their numbers, and of classes: the number of the kind of each, and its name.
#[derive(Drop)]
pub(crate) struct KindTable {
    pub(crate) rows: List<KindRow>,
    pub(crate) of_classes: Numbers,
    pub(crate) names: Names,
}

impl KindTable {
    /// The table of a program. `OutOfMemory` where no memory was to be had. Takes expected time in the length of the names of
    /// kinds.
    pub(crate) fn of(alloc: Global, base: &Base) -> Result<Self, OutOfMemory>
        ensures { IfOk result (IsKindTable base.now) }
    {
        let within = inner_names(alloc, &base.kinds)?;
        let rows = rows_of(alloc, &base.resolver, &base.kinds, &within)?;
        let classes = base.resolver.classes.as_slice();
        let of_classes = kinds_of_classes(alloc, classes, &base.kinds)?;
        let names = names_of_classes(alloc, classes)?;
        Ok(KindTable {
            rows,
            of_classes,
            names,
        })
    }
}

/// The names of classes within those of kinds.
fn inner_names(alloc: Global, kinds: &Texts) -> Result<TextNumbers, OutOfMemory>
    ensures { IfOk result (λ names. names ≡ map inner_name kinds.now) }
{
    let mut names = TextNumbers::new(alloc);
    for kind in 0..kinds.len() as u32 {
        names.push(parts_of(kinds.text(kind)).class)?;
    }
    Ok(names)
}

/// What is kept of each kind.
fn rows_of(
    alloc: Global,
    resolver: &Resolver,
    kinds: &Texts,
    names: &TextNumbers,
) -> Result<List<KindRow>, OutOfMemory>
    ensures { IfOk result (λ rows. rows ≡ map (row_with resolver.now kinds.now names.now) kinds.now) }
{
    let mut rows = List::with_capacity(alloc, kinds.len())?;
    for kind in 0..kinds.len() as u32 {
        rows.push(row_of(resolver, kinds, names, kinds.text(kind)))?;
    }
    Ok(rows)
}

/// The number of the kind of each class.
fn kinds_of_classes(
    alloc: Global,
    classes: &[ClassFile],
    kinds: &Texts,
) -> Result<Numbers, OutOfMemory>
    ensures { IfOk result (λ numbers. numbers ≡ map (λ class. kind_number kinds.now (name_of class)) classes.now) }
{
    let mut numbers = Numbers::with_capacity(alloc, classes.len())?;
    for class in classes {
        numbers.push(kind_number(kinds, name_of(class)))?;
    }
    Ok(numbers)
}

/// The name of each class, as text.
fn names_of_classes(alloc: Global, classes: &[ClassFile]) -> Result<Names, OutOfMemory>
    ensures { IfOk result (λ names. names ≡ map (λ class. utf8 (name_of class)) classes.now) }
{
    let mut names = Names::with_capacity(alloc, classes.len())?;
    for class in classes {
        names.push(name_as_text(alloc, class)?)?;
    }
    Ok(names)
}

/// The name of a class, as text.
fn name_as_text(alloc: Global, class: &ClassFile) -> Result<Name, OutOfMemory>
    ensures { IfOk result (λ name. name ≡ utf8 (name_of class.now)) }
{
    let text = text_of(alloc, name_of(class))?;
    Name::of(alloc, text.as_str())
}
