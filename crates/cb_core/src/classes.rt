// The records of the library's classes.
ghost use Rattle.std.specs.Prelude.{◌≡◌, ◌++◌, IfOk, List, OnOk, map};
ghost use Rattle.std.specs.List.{AllByRecursion, AllZip};
ghost use Rattle.cb_classfile.specs.Library.{AreLibrary, IsReadable};
ghost use Rattle.cb_core.specs.Built.{IsBuilt};
ghost use Rattle.cb_core.specs.Rowed.{class_row, part_rows};
ghost use Rattle.cb_core.specs.Sound.{IsSound};
ghost use Rattle.cb_library.specs.Rows.{CoreClass as Row};
ghost use Rattle.cb_core.specs.Recorded.{core_records, record_of};

use crate::record::record;
use crate::row::CoreClass;
use crate::rows::{BOXES, MATH_ENUM_AND_OBJECTS, OBJECT_AND_INTERFACES, STRINGS, SYSTEM};
use crate::throwables::{ERRORS, OTHER_EXCEPTIONS, RUNTIME_EXCEPTIONS, TOP_THROWABLES};
use cb_classfile::Classes;
use cb_plain::OutOfMemory;
use std::alloc::Global;

/// The records of the library's classes in the order of their numbers, 0 to 49: those of the definition, always the same. Each has the members of
/// its row and no others, in the row's order, and would be read from its own bytes, native methods apart: those have no code, and are
/// left out of classes that are read. `OutOfMemory` where no memory was to be had. Takes time in the size of the table.
pub fn core_classes(alloc: Global) -> Result<Classes, OutOfMemory>
    ensures records { IfOk result AreLibrary }
    ensures readable { IfOk result (AllByRecursion IsReadable) }
    ensures made { IfOk result (λ classes. classes ≡ core_records) }
{
    records_of(
        alloc,
        &[
            OBJECT_AND_INTERFACES,
            STRINGS,
            SYSTEM,
            BOXES,
            MATH_ENUM_AND_OBJECTS,
            TOP_THROWABLES,
            RUNTIME_EXCEPTIONS,
            OTHER_EXCEPTIONS,
            ERRORS,
        ],
    )
}

/// The records of the rows of parts.
fn records_of(alloc: Global, parts: &[&[CoreClass]]) -> Result<Classes, OutOfMemory>
    requires { AllByRecursion IsSound (part_rows parts.now) }
    ensures built { IfOk result (AllZip IsBuilt (part_rows parts.now)) }
    ensures made { IfOk result (λ classes. classes ≡ map record_of (part_rows parts.now)) }
{
    let mut classes = Classes::new(alloc);
    for part in parts {
        add_records(alloc, part, &mut classes)?;
    }
    Ok(classes)
}

/// Adds the records of rows behind those of others.
fn add_records(alloc: Global, rows: &[CoreClass], classes: &mut Classes) -> Result<(), OutOfMemory>
    requires { AllByRecursion IsSound (map class_row rows.now) }
    ensures built { OnOk result ((others : List Row) → AllZip IsBuilt others classes.old
        → AllZip IsBuilt (others ++ map class_row rows.now) classes.new) }
    ensures made { OnOk result (classes.new ≡ classes.old ++ map record_of (map class_row rows.now)) }
{
    for row in rows {
        classes.push(record(alloc, row)?)?;
    }
    Ok(())
}
