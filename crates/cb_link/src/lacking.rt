// The members that instructions name and that can't be had.
ghost use Rattle.std.specs.Prelude.{◌≡◌, IfOk};
ghost use Rattle.cb_link.specs.InnerLacked.{body_lacks, class_lacks, code_lacks};
ghost use Rattle.cb_link.specs.Lacking.{first_lacking, lacks};

use crate::lacked::{lacks_class, lacks_member};
use crate::resolver::Resolver;
use cb_classfile::{ClassFile, Method, index_in, opcode};
use cb_insn::Insn;
use cb_plain::{OutOfMemory, one_more};
use cb_text::{Pool, Units};
use std::alloc::Global;

/// The first class, by its number, of whose instructions one names a member that can't be had, with the text of that member:
/// by class, method and place. `OutOfMemory` where no memory was to be had. Takes expected time in the instructions, times what
/// is above the classes that they name.
pub(crate) fn first_lacking(
    alloc: Global,
    resolver: &Resolver,
) -> Result<Option<(u32, Units)>, OutOfMemory>
    ensures { IfOk result (λ lacking. lacking ≡ first_lacking resolver.now) }
{
    let classes = resolver.classes();
    let mut number = 0;
    for class in classes.as_slice() {
        if let Some(text) = class_lacks(alloc, resolver, number, class)? {
            return Ok(Some((number, text)));
        }
        number = one_more(number)?;
    }
    Ok(None)
}

/// What the first instruction of a class lacks that lacks something.
fn class_lacks(
    alloc: Global,
    resolver: &Resolver,
    number: u32,
    class: &ClassFile,
) -> Result<Option<Units>, OutOfMemory>
    ensures { IfOk result (λ text. text ≡ class_lacks resolver.now number class.now) }
{
    for method in class.methods.as_slice() {
        if let Some(text) = body_lacks(alloc, resolver, number, &class.pool, method)? {
            return Ok(Some(text));
        }
    }
    Ok(None)
}

/// What the first instruction of a method lacks that lacks something.
fn body_lacks(
    alloc: Global,
    resolver: &Resolver,
    number: u32,
    pool: &Pool,
    method: &Method,
) -> Result<Option<Units>, OutOfMemory>
    ensures { IfOk result (λ text. text ≡ body_lacks resolver.now number pool.now method.now.body) }
{
    match &method.body {
        Some(body) => code_lacks(alloc, resolver, number, pool, body.code.as_slice()),
        None => Ok(None),
    }
}

/// What the first of these instructions lacks that lacks something.
fn code_lacks(
    alloc: Global,
    resolver: &Resolver,
    number: u32,
    pool: &Pool,
    code: &[(u32, Insn)],
) -> Result<Option<Units>, OutOfMemory>
    ensures { IfOk result (λ text. text ≡ code_lacks resolver.now number pool.now code.now) }
{
    for (_, insn) in code {
        if let Some(text) = lacks(alloc, resolver, number, pool, insn)? {
            return Ok(Some(text));
        }
    }
    Ok(None)
}

/// What an instruction of a class lacks, if something.
fn lacks(
    alloc: Global,
    resolver: &Resolver,
    number: u32,
    pool: &Pool,
    insn: &Insn,
) -> Result<Option<Units>, OutOfMemory>
    ensures { IfOk result (λ text. text ≡ lacks resolver.now number pool.now insn.now) }
{
    let Some(index) = index_in(&insn.operand) else {
        return Ok(None);
    };
    if insn.opcode == opcode::NEW {
        lacks_class(alloc, resolver, pool.class(index))
    } else {
        lacks_member(alloc, resolver, number, insn.opcode, pool.member(index))
    }
}
