// The objects that instructions make.
ghost use Rattle.std.specs.Prelude.{◌≡◌, IfOk, map, option_copied};
ghost use Rattle.cb_hierarchy.specs.Classes.{listed};
ghost use Rattle.cb_kinds.specs.Kinds.{array_of};
ghost use Rattle.cb_link.specs.Making.{made_by, named_in};
ghost use Rattle.cb_link.specs.InnerSites.{operand_arrays};

use crate::array_names::{base_array, first_kinds};
use crate::units::units_of;
use cb_classfile::index_in;
use cb_insn::{Insn, Operand, opcode};
use cb_kinds::array_of;
use cb_plain::{List, OutOfMemory};
use cb_text::{Pool, Units};
use std::alloc::Global;

/// The kinds of the objects that an instruction makes, the outermost array first. `OutOfMemory` where no memory was to be had.
/// Takes time in the length of their names.
pub(crate) fn made_by(alloc: Global, pool: &Pool, insn: &Insn) -> Result<List<Units>, OutOfMemory>
    ensures { IfOk result (λ names. names ≡ made_by pool.now insn.now) }
{
    if insn.opcode == opcode::NEW {
        object_of(alloc, pool, &insn.operand)
    } else if insn.opcode == opcode::ANEWARRAY {
        array_over(alloc, pool, &insn.operand)
    } else {
        arrays_of(alloc, pool, &insn.operand)
    }
}

/// The name of the class or array that an operand's constant names, if it names one.
fn named_in<'a>(pool: &'a Pool, operand: &Operand) -> Option<&'a [u16]>
    ensures { option_copied result ≡ named_in pool.now operand.now }
{
    pool.class(index_in(operand)?)
}

/// The kind that an operand's constant names.
fn object_of(alloc: Global, pool: &Pool, operand: &Operand) -> Result<List<Units>, OutOfMemory>
    ensures { IfOk result (λ names. names ≡ listed (named_in pool.now operand.now)) }
{
    let mut names = List::new(alloc);
    if let Some(name) = named_in(pool, operand) {
        names.push(units_of(alloc, name)?)?;
    }
    Ok(names)
}

/// The array whose components are of the kind that an operand's constant names.
fn array_over(alloc: Global, pool: &Pool, operand: &Operand) -> Result<List<Units>, OutOfMemory>
    ensures { IfOk result (λ names. names ≡ map array_of (listed (named_in pool.now operand.now))) }
{
    let mut names = List::new(alloc);
    if let Some(name) = named_in(pool, operand) {
        let array = array_of(alloc, name)?;
        names.push(units_of(alloc, &array)?)?;
    }
    Ok(names)
}

/// The array of a base type, or the arrays of as many dimensions, that an operand tells of.
fn arrays_of(alloc: Global, pool: &Pool, operand: &Operand) -> Result<List<Units>, OutOfMemory>
    ensures { IfOk result (λ names. names ≡ operand_arrays pool.now operand.now) }
{
    match operand {
        Operand::ArrayCode(code) => {
            let mut names = List::new(alloc);
            names.push(base_array(alloc, *code)?)?;
            Ok(names)
        }
        Operand::Dimensions {
            pool: index,
            dimensions,
        } => match pool.class(*index) {
            Some(text) => first_kinds(alloc, text, *dimensions),
            None => Ok(List::new(alloc)),
        },
        _ => Ok(List::new(alloc)),
    }
}
