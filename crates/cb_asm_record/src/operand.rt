// The operands of instructions, with indices and places.
ghost use Rattle.std.specs.Prelude.{◌≡◌, ◌<◌, ◌^◌, ◌∷◌, map};
ghost use Rattle.std.specs.List.{AllByRecursion};
ghost use Rattle.cb_insn.specs.declared.insn.Operand.TheVariants as insns;
ghost use Rattle.cb_asm_line.specs.declared.operand.Operand.TheVariants as parts;
ghost use Rattle.cb_asm_record.specs.Entries.{member_entry};
ghost use Rattle.cb_asm_record.specs.Constants.{index_of};
ghost use Rattle.cb_asm_record.specs.Grammar.{HasLabel, labels_of};
ghost use Rattle.cb_asm_record.specs.Inner.{CountFits, Makes, Stands};
ghost use Rattle.cb_asm_record.specs.Labels.{insn_of, member_operand, operand_of, place_at};

use crate::constants::Constants;
use crate::key::{member_key, value_key};
use crate::labels::Labels;
use crate::stop::Stop;
use crate::words::argument_words;
use cb_asm_line::{Instruction, Label, MemberText, Operand as Text};
use cb_insn::{Insn, Operand, Pair, Pairs, Targets, opcode};
use cb_plain::List;
use std::alloc::Global;

/// The instruction, with the indices of its constants and the places of its labels. `NoRecord` where one of these isn't
/// there.
pub(crate) fn insn_of<'a>(
    alloc: Global,
    constants: &Constants<'a>,
    labels: &Labels<'a>,
    instruction: &'a Instruction,
) -> Result<Insn, Stop>
    ensures { Makes (insn_of constants.now (place_at labels.now) instruction.now) (Stands labels.now instruction.now) result }
{
    let operand = operand_of(
        alloc,
        constants,
        labels,
        instruction.opcode,
        &instruction.operand,
    )?;
    Ok(Insn {
        opcode: instruction.opcode,
        wide: instruction.wide,
        operand,
    })
}

/// The operand of the instruction of an opcode.
fn operand_of<'a>(
    alloc: Global,
    constants: &Constants<'a>,
    labels: &Labels<'a>,
    opcode: u8,
    operand: &'a Text,
) -> Result<Operand, Stop>
    ensures { Makes (operand_of constants.now (place_at labels.now) opcode operand.now)
        (AllByRecursion (HasLabel labels.now) (labels_of operand.now) × CountFits opcode operand.now) result }
{
    match operand {
        Text::Nothing => Ok(Operand::Nothing),
        Text::Number(number) => Ok(Operand::Number(*number)),
        Text::Local(local) => Ok(Operand::Local(*local)),
        Text::Increase(local, by) => Ok(Operand::Increase {
            local: *local,
            by: *by,
        }),
        Text::Load(value) => Ok(Operand::Pool(constants.index(value_key(value)))),
        Text::Member(member) => member_of(constants, opcode, member),
        Text::Class(name) => Ok(Operand::Pool(constants.class(name))),
        Text::Array(code) => Ok(Operand::ArrayCode(*code)),
        Text::Dimensions(name, dimensions) => Ok(Operand::Dimensions {
            pool: constants.class(name),
            dimensions: *dimensions,
        }),
        Text::Branch(label) => {
            let target = labels.place(label)?;
            Ok(Operand::Branch(u32::from(target)))
        }
        Text::Table(low, default, names) => table_of(alloc, labels, *low, default, names),
        Text::Lookup(default, names) => lookup_of(alloc, labels, default, names),
    }
}

/// A table.
fn table_of<'a>(
    alloc: Global,
    labels: &Labels<'a>,
    low: i32,
    default: &'a Label,
    names: &'a List<Label>,
) -> Result<Operand, Stop>
    ensures { Makes (insns.Table (place_at labels.now default.now) low (map (place_at labels.now) names.now))
        (AllByRecursion (HasLabel labels.now) (default.now ∷ names.now)) result }
{
    let default = labels.place(default)?;
    let targets = targets_of(alloc, labels, names.as_slice())?;
    Ok(Operand::Table {
        default: u32::from(default),
        low,
        targets,
    })
}

/// A lookup.
fn lookup_of<'a>(
    alloc: Global,
    labels: &Labels<'a>,
    default: &'a Label,
    names: &'a List<(i32, Label)>,
) -> Result<Operand, Stop>
    ensures { Makes (insns.Lookup (place_at labels.now default.now) (map (λ pair. record { key = pair.0; target = place_at labels.now pair.1 }) names.now))
        (AllByRecursion (HasLabel labels.now) (default.now ∷ map (λ pair. pair.1) names.now)) result }
{
    let default = labels.place(default)?;
    let pairs = pairs_of(alloc, labels, names.as_slice())?;
    Ok(Operand::Lookup {
        default: u32::from(default),
        pairs,
    })
}

/// A field or method, with a count for `invokeinterface`.
fn member_of<'a>(
    constants: &Constants<'a>,
    opcode: u8,
    member: &'a MemberText,
) -> Result<Operand, Stop>
    ensures { Makes (member_operand opcode (index_of constants.now (member_entry member.now)) member.now)
        (CountFits opcode (parts.Member member.now)) result }
{
    let pool = constants.index(member_key(member));
    if opcode != opcode::INVOKEINTERFACE {
        return Ok(Operand::Pool(pool));
    }
    let count = argument_words(member.descriptor.as_slice())?;
    Ok(Operand::Interface { pool, count })
}

/// The places of labels.
fn targets_of<'a>(alloc: Global, labels: &Labels<'a>, names: &'a [Label]) -> Result<Targets, Stop>
    ensures { Makes (map (place_at labels.now) names.now) (AllByRecursion (HasLabel labels.now) names.now) result }
{
    let mut targets = Targets::with_capacity(alloc, names.len())?;
    for name in names {
        let place = labels.place(name)?;
        targets.push(u32::from(place))?;
    }
    Ok(targets)
}

/// The pairs of a lookup, with the places of their labels.
fn pairs_of<'a>(
    alloc: Global,
    labels: &Labels<'a>,
    names: &'a [(i32, Label)],
) -> Result<Pairs, Stop>
    ensures { Makes (map (λ pair. record { key = pair.0; target = place_at labels.now pair.1 }) names.now)
        (AllByRecursion (HasLabel labels.now) (map (λ pair. pair.1) names.now)) result }
{
    let mut pairs = Pairs::with_capacity(alloc, names.len())?;
    for name in names {
        let place = labels.place(&name.1)?;
        pairs.push(Pair {
            key: name.0,
            target: u32::from(place),
        })?;
    }
    Ok(pairs)
}
