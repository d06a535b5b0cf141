// The tables of a program, in two parts.
ghost use Rattle.std.specs.Prelude.{IfOk};
ghost use Rattle.cb_link.specs.InnerTables.{AreCodeTables, AreMemberTables, AreTables, IsFieldTables};

use crate::base::Base;
use crate::call_tables::CallTables;
use crate::constant_table::ConstantTable;
use crate::field_tables::FieldTables;
use crate::kind_table::KindTable;
use crate::meanings::MeaningTable;
use crate::place_tables::PlaceTables;
use cb_plain::OutOfMemory;
use std::alloc::Global;

/// What is asked of kinds, fields and methods.
#[derive(Drop)]
pub(crate) struct MemberTables {
    pub(crate) kinds: KindTable,
    pub(crate) fields: FieldTables,
    pub(crate) calls: CallTables,
}

/// What is asked of constants and instructions.
#[derive(Drop)]
pub(crate) struct CodeTables {
    pub(crate) constants: ConstantTable,
    pub(crate) places: PlaceTables,
}

/// All tables.
#[derive(Drop)]
pub(crate) struct Tables {
    pub(crate) members: MemberTables,
    pub(crate) code: CodeTables,
}

impl Tables {
    /// Those of a program. `OutOfMemory` where no memory was to be had.
    pub(crate) fn of(alloc: Global, base: &Base) -> Result<Self, OutOfMemory>
        ensures { IfOk result (AreTables base.now) }
    {
        let members = MemberTables::of(alloc, base)?;
        let code = CodeTables::of(alloc, base, &members.fields)?;
        Ok(Tables { members, code })
    }
}

impl MemberTables {
    /// Those of a program. `OutOfMemory` where no memory was to be had.
    pub(crate) fn of(alloc: Global, base: &Base) -> Result<Self, OutOfMemory>
        ensures { IfOk result (AreMemberTables base.now) }
    {
        Ok(MemberTables {
            kinds: KindTable::of(alloc, base)?,
            fields: FieldTables::of(alloc, base)?,
            calls: CallTables::of(alloc, base)?,
        })
    }
}

impl CodeTables {
    /// Those of a program. `OutOfMemory` where no memory was to be had.
    pub(crate) fn of(alloc: Global, base: &Base, fields: &FieldTables) -> Result<Self, OutOfMemory>
        requires { IsFieldTables base.now fields.now }
        ensures { IfOk result (AreCodeTables base.now) }
    {
        let constants = ConstantTable::of(alloc, base, fields)?;
        let meanings = MeaningTable::of(alloc, base, fields, &constants)?;
        let places = PlaceTables::of(alloc, base, &meanings)?;
        Ok(CodeTables { constants, places })
    }
}
