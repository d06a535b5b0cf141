// Instructions as lines.
ghost use Rattle.std.specs.Prelude.{◌≡◌, ◌++◌, OnOk, map, string_bytes};
ghost use Rattle.cb_asm_line.specs.Lines.{line_text};
ghost use Rattle.cb_asm_line.specs.Mnemonics.{mnemonic};
ghost use Rattle.cb_asm_line.specs.Operands.{array_type as array_type_of, instruction_words, label_word, operand_words};
ghost use Rattle.cb_asm_line.specs.declared.operand.Operand.TheVariants as words;
ghost use Rattle.cb_asm_list.specs.Inner.{behind, pair_words, wide_front};
ghost use Rattle.cb_asm_list.specs.Listing.{label_of, operand_in};

use crate::constant::push_named;
use crate::names::class_name;
use crate::places::Places;
use crate::words::{end_line, push_label, push_name_word, push_number, push_signed, push_word};
use cb_asm_line::name_of;
use cb_classfile::{ClassFile, Insn, Operand, Pair};
use cb_plain::OutOfMemory;

/// Adds the line of an instruction.
pub(crate) fn push_instruction(
    text: &mut String,
    class: &ClassFile,
    labels: &Places,
    insn: &Insn,
) -> Result<(), OutOfMemory>
    ensures { OnOk result (string_bytes text.new ≡ string_bytes text.old ++ line_text (instruction_words (record {
      opcode = insn.now.opcode;
      wide = insn.now.wide;
      operand = operand_in class.now (label_of labels.now) insn.now.opcode insn.now.operand;
    }))) }
{
    push_wide(text, insn.wide)?;
    push_mnemonic(text, insn.opcode)?;
    push_operand(text, class, labels, insn.opcode, &insn.operand)?;
    end_line(text)
}

/// Adds the word `wide`, where it stands before an instruction.
fn push_wide(text: &mut String, wide: bool) -> Result<(), OutOfMemory>
    ensures { OnOk result (string_bytes text.new ≡ string_bytes text.old ++ wide_front wide) }
{
    if wide { text.push_str("wide ") } else { Ok(()) }
}

/// Adds the name of an opcode, if there is one.
fn push_mnemonic(text: &mut String, opcode: u8) -> Result<(), OutOfMemory>
    ensures { OnOk result (string_bytes text.new ≡ string_bytes text.old ++ mnemonic opcode) }
{
    match name_of(opcode) {
        Some(name) => text.push_str(name),
        None => Ok(()),
    }
}

/// Adds the words of an operand.
fn push_operand(
    text: &mut String,
    class: &ClassFile,
    labels: &Places,
    opcode: u8,
    operand: &Operand,
) -> Result<(), OutOfMemory>
    ensures { OnOk result (string_bytes text.new ≡ string_bytes text.old
        ++ behind (operand_words (operand_in class.now (label_of labels.now) opcode operand.now))) }
{
    match operand {
        Operand::Nothing => Ok(()),
        Operand::Number(number) => push_signed(text, i64::from(*number)),
        Operand::Pool(index) => push_named(text, &class.pool, opcode, *index),
        Operand::Local(local) => push_number(text, u32::from(*local)),
        Operand::Increase { local, by } => push_increase(text, *local, *by),
        Operand::Branch(target) => push_label(text, labels, *target),
        Operand::ArrayCode(code) => push_word(text, array_type(*code)),
        Operand::Dimensions { pool, dimensions } => {
            push_dimensions(text, class_name(class, *pool), *dimensions)
        }
        Operand::Interface { pool, .. } => push_named(text, &class.pool, opcode, *pool),
        Operand::Table {
            default,
            low,
            targets,
        } => push_table(text, labels, *default, *low, targets.as_slice()),
        Operand::Lookup { default, pairs } => {
            push_lookup(text, labels, *default, pairs.as_slice())
        }
    }
}

/// Adds a local and what it is increased by.
fn push_increase(text: &mut String, local: u16, by: i16) -> Result<(), OutOfMemory>
    ensures { OnOk result (string_bytes text.new ≡ string_bytes text.old
        ++ behind (operand_words (words.Increase local by))) }
{
    push_number(text, u32::from(local))?;
    push_signed(text, i64::from(by))
}

/// Adds the class of arrays and how many dimensions are made.
fn push_dimensions(text: &mut String, name: &[u16], dimensions: u8) -> Result<(), OutOfMemory>
    ensures { OnOk result (string_bytes text.new ≡ string_bytes text.old
        ++ behind (operand_words (words.Dimensions name.now dimensions))) }
{
    push_name_word(text, name)?;
    push_number(text, u32::from(dimensions))
}

/// The word of a primitive type, by its code.
fn array_type(code: u8) -> &'static str
    ensures { result.now ≡ array_type_of code }
{
    match code.saturating_sub(4) {
        0 => "boolean",
        1 => "char",
        2 => "float",
        3 => "double",
        4 => "byte",
        5 => "short",
        6 => "int",
        7 => "long",
        _ => "",
    }
}

/// Adds the operand of a `tableswitch`.
fn push_table(
    text: &mut String,
    labels: &Places,
    default: u32,
    low: i32,
    targets: &[u32],
) -> Result<(), OutOfMemory>
    ensures { OnOk result (string_bytes text.new ≡ string_bytes text.old
        ++ behind (operand_words (words.Table low (label_of labels.now default) (map (label_of labels.now) targets.now)))) }
{
    push_signed(text, i64::from(low))?;
    push_label(text, labels, default)?;
    push_labels(text, labels, targets)
}

/// Adds the labels of places.
fn push_labels(text: &mut String, labels: &Places, places: &[u32]) -> Result<(), OutOfMemory>
    ensures { OnOk result (string_bytes text.new ≡ string_bytes text.old
        ++ behind (map label_word (map (label_of labels.now) places.now))) }
{
    for place in places {
        push_label(text, labels, *place)?;
    }
    Ok(())
}

/// Adds the operand of a `lookupswitch`.
fn push_lookup(
    text: &mut String,
    labels: &Places,
    default: u32,
    pairs: &[Pair],
) -> Result<(), OutOfMemory>
    ensures { OnOk result (string_bytes text.new ≡ string_bytes text.old
        ++ behind (operand_words (words.Lookup (label_of labels.now default) (map (λ pair. (pair.key, label_of labels.now pair.target)) pairs.now)))) }
{
    push_label(text, labels, default)?;
    push_pairs(text, labels, pairs)
}

/// Adds keys, each with the label of its place.
fn push_pairs(text: &mut String, labels: &Places, pairs: &[Pair]) -> Result<(), OutOfMemory>
    ensures { OnOk result (string_bytes text.new ≡ string_bytes text.old
        ++ behind (pair_words (map (λ pair. (pair.key, label_of labels.now pair.target)) pairs.now))) }
{
    for pair in pairs {
        push_signed(text, i64::from(pair.key))?;
        push_label(text, labels, pair.target)?;
    }
    Ok(())
}
