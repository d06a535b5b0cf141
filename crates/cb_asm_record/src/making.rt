// The record of a program.
ghost use Rattle.std.specs.Prelude.{◌≡◌, IfOk, MatchOption, map};
ghost use Rattle.cb_asm_record.specs.Entries.{Class};
ghost use Rattle.cb_asm_record.specs.Constants.{index_of};
ghost use Rattle.cb_asm_record.specs.Grammar.{HasCode, IsProgram};
ghost use Rattle.cb_asm_record.specs.Inner.{HasRecord, Makes};
ghost use Rattle.cb_asm_record.specs.Record.{class_of};

use crate::constants::{Constants, constants_of};
use crate::member::{fields_of, methods_of};
use crate::stop::Stop;
use crate::uses::uses_of;
use cb_asm_line::Program;
use cb_classfile::{ClassFile, ClassFlags};
use cb_plain::{Numbers, OutOfMemory};
use cb_text::Units;
use std::alloc::{AllocError, Global};

/// The class record of a program whose labels stand as they should, or `None` where they don't, or where the record has no
/// numbers for what the program says and so isn't well formed. `OutOfMemory` where no memory was to be had. Takes time in
/// the size of the program, times the logarithm of the number of its constants and labels.
pub fn record(alloc: Global, program: &Program) -> Result<Option<ClassFile>, OutOfMemory>
    ensures { IfOk result (λ found. MatchOption found (¬ IsProgram program.now)
        (λ class. (class ≡ class_of program.now) × HasCode program.now)) }
{
    match class_of(alloc, program) {
        Ok(class) => Ok(Some(class)),
        Err(Stop::NoRecord) => Ok(None),
        Err(Stop::OutOfMemory) => Err(AllocError),
    }
}

/// The class record of a program. `NoRecord` where its constants make no pool, or its labels don't stand as they should.
fn class_of(alloc: Global, program: &Program) -> Result<ClassFile, Stop>
    ensures { Makes (class_of program.now) (HasRecord program.now) result }
{
    let uses = uses_of(alloc, program)?;
    let constants = constants_of(alloc, uses)?;
    let interfaces = interfaces_of(alloc, &constants, program.interfaces.as_slice())?;
    let fields = fields_of(alloc, &constants, program.fields.as_slice())?;
    let methods = methods_of(alloc, &constants, program.methods.as_slice())?;
    let this_class = constants.class(&program.name);
    let super_class = constants.optional_class(&program.superclass);
    Ok(ClassFile {
        minor: 0,
        major: program.major,
        pool: constants.into_pool(),
        flags: ClassFlags(program.flags),
        this_class,
        super_class,
        interfaces,
        fields,
        methods,
    })
}

/// The indices of interfaces.
fn interfaces_of<'a>(
    alloc: Global,
    constants: &Constants<'a>,
    names: &'a [Units],
) -> Result<Numbers, OutOfMemory>
    ensures { IfOk result (λ indices. indices ≡ map (λ name. index_of constants.now (Class name)) names.now) }
{
    let mut indices = Numbers::with_capacity(alloc, names.len())?;
    for name in names {
        indices.push(u32::from(constants.class(name)))?;
    }
    Ok(indices)
}
