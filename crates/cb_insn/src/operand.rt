// The operand of a whole instruction.
ghost use Rattle.std.specs.Prelude.{◌≡◌, ◌^◌, ◌<◌, ◌≤◌, length, All, IfOk, IfErr};
ghost use Rattle.cb_insn.specs.Faults.{operand_length, table_length, lookup_length, table_offsets, lookup_offsets, targets_in};
ghost use Rattle.cb_insn.specs.Inner.{IsMarked, Misses, operand_of, operand_targets, table_of, lookup_of};

use crate::form::Form;
use crate::numbers::{after, s2_at, s4_at, u2_at};
use crate::switch::{behind_padding, lookup_count, table_count};
use crate::target::{pairs_at, target_at, targets_at};
use crate::{InsnFault, Operand};
use std::alloc::Global;

/// The operand behind an opcode at a place, or `BadTarget` where one of its targets has no mark.
#[inline(always)]
pub(crate) fn operand_at(
    alloc: Global,
    pc: usize,
    form: Form,
    behind: &[u8],
    starts: &[bool],
) -> Result<Operand, InsnFault>
    requires place { pc < 2 ^ 32 }
    requires few { length starts.now < 2 ^ 32 }
    requires there { operand_length pc form behind.now ≤ length behind.now }
    ensures ok { IfOk result (λ operand. (operand ≡ operand_of pc form behind.now)
        × All (IsMarked starts.now) (operand_targets pc form behind.now)) }
    ensures err { IfErr result (Misses pc (operand_targets pc form behind.now) starts.now) }
{
    match form {
        Form::Plain => Ok(Operand::Nothing),
        Form::Byte => Ok(Operand::Number(i16::from(behind[0].cast_signed()))),
        Form::Short => Ok(Operand::Number(s2_at(behind))),
        Form::PoolByte => Ok(Operand::Pool(u16::from(behind[0]))),
        Form::Pool | Form::Dynamic => Ok(Operand::Pool(u2_at(behind))),
        Form::Local => Ok(Operand::Local(u16::from(behind[0]))),
        Form::WideLocal => Ok(Operand::Local(u2_at(behind))),
        Form::Increase => Ok(Operand::Increase {
            local: u16::from(behind[0]),
            by: i16::from(behind[1].cast_signed()),
        }),
        Form::WideIncrease => Ok(Operand::Increase {
            local: u2_at(behind),
            by: s2_at(after(behind, 2)),
        }),
        Form::Branch => {
            let offset = i32::from(s2_at(behind));
            Ok(Operand::Branch(target_at(pc, offset, starts)?))
        }
        Form::LongBranch => Ok(Operand::Branch(target_at(pc, s4_at(behind), starts)?)),
        Form::Table => table_at(alloc, pc, behind_padding(pc, behind), starts),
        Form::Lookup => lookup_at(alloc, pc, behind_padding(pc, behind), starts),
        Form::ArrayCode => Ok(Operand::ArrayCode(behind[0])),
        Form::Dimensions => Ok(Operand::Dimensions {
            pool: u2_at(behind),
            dimensions: behind[2],
        }),
        Form::Interface => Ok(Operand::Interface {
            pool: u2_at(behind),
            count: behind[2],
        }),
    }
}

/// The operand of a `tableswitch`, from behind its padding on.
fn table_at(alloc: Global, pc: usize, switch: &[u8], starts: &[bool]) -> Result<Operand, InsnFault>
    requires place { pc < 2 ^ 32 }
    requires few { length starts.now < 2 ^ 32 }
    requires there { table_length switch.now ≤ length switch.now }
    ensures ok { IfOk result (λ operand. (operand ≡ table_of pc switch.now)
        × All (IsMarked starts.now) (targets_in pc (table_offsets switch.now))) }
    ensures err { IfErr result (Misses pc (targets_in pc (table_offsets switch.now)) starts.now) }
{
    let default = target_at(pc, s4_at(switch), starts)?;
    let targets = targets_at(alloc, pc, table_count(switch), after(switch, 12), starts)?;
    Ok(Operand::Table {
        default,
        low: s4_at(after(switch, 4)),
        targets,
    })
}

/// The operand of a `lookupswitch`, from behind its padding on.
fn lookup_at(alloc: Global, pc: usize, switch: &[u8], starts: &[bool]) -> Result<Operand, InsnFault>
    requires place { pc < 2 ^ 32 }
    requires few { length starts.now < 2 ^ 32 }
    requires there { lookup_length switch.now ≤ length switch.now }
    ensures ok { IfOk result (λ operand. (operand ≡ lookup_of pc switch.now)
        × All (IsMarked starts.now) (targets_in pc (lookup_offsets switch.now))) }
    ensures err { IfErr result (Misses pc (targets_in pc (lookup_offsets switch.now)) starts.now) }
{
    let default = target_at(pc, s4_at(switch), starts)?;
    let pairs = pairs_at(alloc, pc, lookup_count(switch), after(switch, 8), starts)?;
    Ok(Operand::Lookup { default, pairs })
}
