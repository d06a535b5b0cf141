// Code as lines.
ghost use Rattle.std.specs.Prelude.{◌≡◌, ◌++◌, OnOk, length, map, string_bytes};
ghost use Rattle.std.specs.List.{flat_map};
ghost use Rattle.cb_asm_line.specs.Lines.{lines_text};
ghost use Rattle.cb_asm_line.specs.Spelling.{code_line};
ghost use Rattle.cb_asm_list.specs.Inner.{placed_text};
ghost use Rattle.cb_asm_list.specs.Listing.{code_line_of, label_line};
ghost use Rattle.cb_insn.specs.Writing.{code_bytes};

use crate::operand::push_instruction;
use crate::places::Places;
use cb_classfile::{Body, ClassFile, Insn};
use cb_plain::OutOfMemory;
use std::fmt::Write;

/// Adds the lines of the instructions and labels of a body, whose code takes so many bytes.
pub(crate) fn push_code(
    text: &mut String,
    class: &ClassFile,
    labels: &Places,
    body: &Body,
    size: u32,
) -> Result<(), OutOfMemory>
    requires { size ≡ length (code_bytes body.now.code) }
    ensures { OnOk result (string_bytes text.new ≡ string_bytes text.old ++ lines_text (map code_line
        (flat_map (code_line_of class.now labels.now) body.now.code ++ label_line labels.now (length (code_bytes body.now.code))))) }
{
    push_instructions(text, class, labels, body.code.as_slice())?;
    push_label_line(text, labels, size)
}

/// Adds the lines of instructions, and those of the labels before them.
fn push_instructions(
    text: &mut String,
    class: &ClassFile,
    labels: &Places,
    code: &[(u32, Insn)],
) -> Result<(), OutOfMemory>
    ensures { OnOk result (string_bytes text.new ≡ string_bytes text.old
        ++ flat_map (placed_text class.now labels.now) code.now) }
{
    for placed in code {
        push_placed(text, class, labels, placed)?;
    }
    Ok(())
}

/// Adds the line of an instruction, and that of the label before it, if it has one.
fn push_placed(
    text: &mut String,
    class: &ClassFile,
    labels: &Places,
    placed: &(u32, Insn),
) -> Result<(), OutOfMemory>
    ensures { OnOk result (string_bytes text.new ≡ string_bytes text.old
        ++ placed_text class.now labels.now placed.now) }
{
    push_label_line(text, labels, placed.0)?;
    push_instruction(text, class, labels, &placed.1)
}

/// Adds the line of the label of a place, if it has one.
fn push_label_line(text: &mut String, labels: &Places, place: u32) -> Result<(), OutOfMemory>
    ensures { OnOk result (string_bytes text.new ≡ string_bytes text.old
        ++ lines_text (map code_line (label_line labels.now place))) }
{
    if labels.contains(place) {
        let number = labels.number(place);
        write!(text, "L{number}:\n")
    } else {
        Ok(())
    }
}
