// The record of a text, if it has one.
ghost use Rattle.std.specs.Prelude.{◌≡◌, ◌↔◌, IfOk, IsTrue, MatchOption};
ghost use Rattle.cb_asm.specs.Inner.{IsProgramText};
ghost use Rattle.cb_asm_record.specs.Grammar.{Assembles};
ghost use Rattle.cb_classfile.specs.declared.class.ClassFile.{ClassFile as AnyClass};

use crate::reading::read_program;
use cb_asm_record::record;
use cb_classfile::ClassFile;
use cb_plain::OutOfMemory;
use cb_writer::well_formed_by_numbers;
use std::alloc::Global;

/// The class record of a text, or `None` where it has none.
pub(crate) fn assembled(alloc: Global, text: &[u8]) -> Result<Option<ClassFile>, OutOfMemory>
    ensures { IfOk result (λ found. MatchOption found ((class : AnyClass) → ¬ Assembles text.now class)
        (λ class. Assembles text.now class)) }
{
    let Some(program) = read_program(alloc, text)? else {
        return Ok(None);
    };
    let Some(class) = record(alloc, &program)? else {
        return Ok(None);
    };
    if !well_formed_by_numbers(alloc, &class)? {
        return Ok(None);
    }
    Ok(Some(class))
}

/// Whether a text is that of a program.
pub(crate) fn is_program(alloc: Global, text: &[u8]) -> Result<bool, OutOfMemory>
    ensures { IfOk result (λ is. IsTrue is ↔ IsProgramText text.now) }
{
    let Some(_) = assembled(alloc, text)? else {
        return Ok(false);
    };
    Ok(true)
}
