// Lines of the format, and lines outside it, by hand.
use cb_asm_line::{
    CodeLine, FieldText, Frame, Instruction, Label, Statement, first_line, name_of, opcode_of,
    push_class_flags, push_field_flags, push_method_flags, push_name, push_quoted, read_line,
};
use cb_rows::Trouble;
use std::alloc::{AllocError, Global};

pub(crate) fn tell(
    alloc: Global,
    told: &mut String,
    table: &str,
    row: &str,
) -> Result<(), Trouble> {
    match table {
        "of the format" | "outside it" => tell_read(told, alloc, row),
        "said" => tell_said(told, alloc, row),
        "ends" => tell_end(told, alloc, row),
        "opcodes" => Ok(write!(told, "{:?}", opcode_of(row.as_bytes()))?),
        "mnemonics" => tell_mnemonic(told, row),
        "flags" => tell_flags(told, row),
        _ => tell_units(told, alloc, table, row),
    }
}

/// Whether a line is of the format. It may stand between two apostrophes.
fn tell_read(told: &mut String, alloc: Global, row: &str) -> Result<(), Trouble> {
    let line = row
        .strip_prefix('\'')
        .and_then(|rest| rest.strip_suffix('\''))
        .unwrap_or(row);
    let said = read_line(alloc, line.as_bytes())?;
    let is_read = said.is_some();
    drop(said);
    Ok(told.push_str(if is_read { "read" } else { "none" })?)
}

/// What a line says.
fn tell_said(told: &mut String, alloc: Global, row: &str) -> Result<(), Trouble> {
    let said = read_line(alloc, row.as_bytes())?.ok_or(Trouble::NotUnderstood)?;
    let answer = tell_statement(told, &said);
    drop(said);
    answer
}

fn tell_statement(told: &mut String, said: &Statement) -> Result<(), Trouble> {
    match said {
        Statement::Field(field) => Ok(tell_field(told, field)?),
        Statement::Code(CodeLine::Do(insn)) => Ok(tell_insn(told, insn)?),
        Statement::Frame(frame) => Ok(tell_frame(told, frame)?),
        _ => Err(Trouble::NotUnderstood),
    }
}

/// The flags, the name and the value of a field.
fn tell_field(told: &mut String, field: &FieldText) -> Result<(), AllocError> {
    let name = field.name.as_slice();
    write!(told, "field {:04X} {name:?} {:?}", field.flags, field.value)
}

/// The opcode, whether it is wide, and the operand of an instruction.
fn tell_insn(told: &mut String, insn: &Instruction) -> Result<(), AllocError> {
    write!(told, "{:02X} {} {:?}", insn.opcode, insn.wide, insn.operand)
}

/// The digits of a frame's label, and how many types it has.
fn tell_frame(told: &mut String, frame: &Frame<Label>) -> Result<(), AllocError> {
    let place = frame.place.as_slice();
    let locals = frame.locals.len();
    write!(told, "frame {place:?} {locals} {}", frame.stack.len())
}

/// The first line of a text, and what stands behind it. Bars stand for the ends of lines.
fn tell_end(told: &mut String, alloc: Global, row: &str) -> Result<(), Trouble> {
    let text = lines_of(alloc, row)?;
    Ok(write!(told, "{:?}", first_line(text.as_bytes()))?)
}

/// A text in which bars stand for the ends of its lines.
pub(crate) fn lines_of(alloc: Global, row: &str) -> Result<String, AllocError> {
    row.chars()
        .map(|sign| if sign == '|' { '\n' } else { sign })
        .collect(alloc)
}

/// The number of four hexadecimal digits or fewer.
fn hexadecimal(word: &str) -> Result<u16, Trouble> {
    u16::from_str_radix(word, 16).map_err(|_| Trouble::NotUnderstood)
}

/// The name of an opcode.
fn tell_mnemonic(told: &mut String, row: &str) -> Result<(), Trouble> {
    let opcode = u8::from_str_radix(row, 16).map_err(|_| Trouble::NotUnderstood)?;
    Ok(write!(told, "{:?}", name_of(opcode))?)
}

/// The words of the flags of a class, a field or a method.
fn tell_flags(told: &mut String, row: &str) -> Result<(), Trouble> {
    let (kind, digits) = row.split_once(' ').ok_or(Trouble::NotUnderstood)?;
    let flags = hexadecimal(digits)?;
    match kind {
        "class" => push_class_flags(told, flags)?,
        "field" => push_field_flags(told, flags)?,
        "method" => push_method_flags(told, flags)?,
        _ => return Err(Trouble::NotUnderstood),
    }
    Ok(())
}

/// The units that hexadecimal digits tell, as a word of a line or between quotes.
fn tell_units(told: &mut String, alloc: Global, table: &str, row: &str) -> Result<(), Trouble> {
    let mut units = Vec::new(alloc);
    for word in row.split(' ') {
        units.push(hexadecimal(word)?)?;
    }
    match table {
        "names" => push_name(told, units.as_slice())?,
        "quoted" => push_quoted(told, units.as_slice())?,
        _ => return Err(Trouble::NotUnderstood),
    }
    Ok(())
}
