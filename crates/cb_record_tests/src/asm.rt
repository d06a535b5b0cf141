// Texts that are assembled and class files that are listed.
use crate::classfile::bytes_at;
use crate::line::lines_of;
use cb_asm::{
    AsmFault, assemble, assemble_bytes, first_sample, forms_sample, frames_in_full, list,
    one_record, parameters_sample,
};
use cb_asm_list::list as list_lines;
use cb_classfile::{Body, Method, read_class};
use cb_rows::{Trouble, number_of};
use cb_writer::write_class;
use std::alloc::{AllocError, Global};
use std::fs;

pub(crate) fn tell(
    rt: &HostRuntime,
    told: &mut String,
    table: &str,
    row: &str,
) -> Result<(), Trouble> {
    let alloc = rt.alloc();
    match table {
        "listings" => tell_listing(rt, told, row),
        "listed again" => tell_listed(rt, told, row),
        "texts" => tell_text(rt, told, row),
        "files" => tell_file(rt, told, row),
        "places" => tell_place(rt, told, row),
        "bad lines" => tell_bad_lines(told, alloc, row),
        "bad bytes" => tell_bad_bytes(told, alloc, row),
        "reach" => tell_reach(told, alloc, row),
        "constants" => tell_constants(told, alloc, number_of(row)?),
        "faults" => tell_fault(told, row),
        "laws" => Ok(tell_laws(told)?),
        _ => Err(Trouble::NotUnderstood),
    }
}

/// The text of a file in `data/`.
fn text_at(rt: &HostRuntime, name: &str) -> Result<String, Trouble> {
    fs::read_to_string(rt, name).map_err(|_| Trouble::NotUnderstood)
}

/// The listing of a file, line by line.
fn tell_listing(rt: &HostRuntime, told: &mut String, file: &str) -> Result<(), Trouble> {
    let bytes = bytes_at(rt, file)?;
    match read_class(rt.alloc(), bytes.as_slice()) {
        Ok(class) => {
            let text = list_lines(rt.alloc(), &class);
            drop(class);
            Ok(told.push_str(text?.as_str())?)
        }
        Err(_) => Err(Trouble::Refused),
    }
}

/// The listing of a file.
fn listed(alloc: Global, bytes: &[u8]) -> Result<String, Trouble> {
    match read_class(alloc, bytes) {
        Ok(class) => {
            let text = list(alloc, &class);
            drop(class);
            Ok(text?)
        }
        Err(_) => Err(Trouble::Refused),
    }
}

/// The file that a text assembles to.
fn assembled(alloc: Global, text: &str) -> Result<Vec<u8>, Trouble> {
    match assemble(alloc, text) {
        Ok(class) => {
            let bytes = write_class(alloc, &class);
            drop(class);
            Ok(bytes?)
        }
        Err(_) => Err(Trouble::Refused),
    }
}

/// What a text assembles to, listed.
fn again(alloc: Global, text: &str) -> Result<String, Trouble> {
    let bytes = assembled(alloc, text)?;
    listed(alloc, bytes.as_slice())
}

/// The same of the text of a file, line by line.
fn tell_text(rt: &HostRuntime, told: &mut String, file: &str) -> Result<(), Trouble> {
    let text = text_at(rt, file)?;
    Ok(told.push_str(again(rt.alloc(), text.as_str())?.as_str())?)
}

/// Whether the listing of a file is the same after it was assembled.
fn tell_listed(rt: &HostRuntime, told: &mut String, file: &str) -> Result<(), Trouble> {
    let same = is_kept(rt.alloc(), bytes_at(rt, file)?.as_slice())?;
    Ok(write!(told, "{same}")?)
}

/// Whether that is so of the bytes of a file.
fn is_kept(alloc: Global, bytes: &[u8]) -> Result<bool, Trouble> {
    let text = listed(alloc, bytes)?;
    let again = again(alloc, text.as_str())?;
    Ok(again.as_str() == text.as_str())
}

/// Whether a text assembles to a file. The row names both.
fn tell_file(rt: &HostRuntime, told: &mut String, row: &str) -> Result<(), Trouble> {
    let (text, file) = row.split_once(' ').ok_or(Trouble::NotUnderstood)?;
    let text = text_at(rt, text)?;
    let file = bytes_at(rt, file)?;
    let same = assembled(rt.alloc(), text.as_str())?.as_slice() == file.as_slice();
    Ok(write!(told, "{same}")?)
}

/// The opcode of the instruction at a place of what a text assembles to, and whether it is wide. The row names both.
fn tell_place(rt: &HostRuntime, told: &mut String, row: &str) -> Result<(), Trouble> {
    let (text, place) = row.split_once(' ').ok_or(Trouble::NotUnderstood)?;
    let place = number_of(place)?;
    let text = text_at(rt, text)?;
    match assemble(rt.alloc(), text.as_str()) {
        Ok(class) => {
            let pushed = push_insns(told, class.methods.as_slice(), place);
            drop(class);
            Ok(pushed?)
        }
        Err(_) => Err(Trouble::Refused),
    }
}

/// Adds the instructions of methods at a place.
fn push_insns(told: &mut String, methods: &[Method], place: u32) -> Result<(), AllocError> {
    for method in methods {
        if let Some(body) = &method.body {
            push_insn(told, body, place)?;
        }
    }
    Ok(())
}

/// Adds the instruction of a body at a place.
fn push_insn(told: &mut String, body: &Body, place: u32) -> Result<(), AllocError> {
    for (at, insn) in body.code.as_slice() {
        if *at == place {
            write!(told, "{:02X} {} ", insn.opcode, insn.wide)?;
        }
    }
    Ok(())
}

/// The number of the first bad line of a row's text, in which bars stand for the ends of lines.
fn tell_bad_lines(told: &mut String, alloc: Global, row: &str) -> Result<(), Trouble> {
    tell_bad_line(told, alloc, lines_of(alloc, row)?.as_str())
}

/// The number of the first bad line of a text.
fn tell_bad_line(told: &mut String, alloc: Global, text: &str) -> Result<(), Trouble> {
    match assemble(alloc, text).err() {
        Some(AsmFault::BadLine { line }) => Ok(write!(told, "{line}")?),
        _ => Err(Trouble::Refused),
    }
}

/// What is told of bytes that are no text: those of the row, in which a question mark stands for FF.
fn tell_bad_bytes(told: &mut String, alloc: Global, row: &str) -> Result<(), Trouble> {
    let text = lines_of(alloc, row)?;
    let bytes: Vec<u8> = text
        .as_bytes()
        .iter()
        .map(|byte| if *byte == b'?' { 0xFF } else { *byte })
        .collect(alloc)?;
    Ok(write!(told, "{:?}", assemble_bytes(alloc, bytes.as_slice()).err())?)
}

/// The first lines of a text.
const FRONT: &str = "class 52 0 A java/lang/Object\nmethod static m ()V\nlimits 1 1\n";

/// Adds more than 32767 bytes of a tableswitch.
fn push_switch(text: &mut String) -> Result<(), AllocError> {
    text.push_str("tableswitch 0 L0")?;
    for _ in 0..8200 {
        text.push_str(" L0")?;
    }
    text.push('\n')
}

/// The first bad line of a text with that switch between the lines that a row has before and behind a slash. Bars stand for the ends of lines.
fn tell_reach(told: &mut String, alloc: Global, row: &str) -> Result<(), Trouble> {
    let (before, behind) = row.split_once('/').ok_or(Trouble::NotUnderstood)?;
    let mut text = String::from_str(alloc, FRONT)?;
    text.push_str(lines_of(alloc, before)?.as_str())?;
    push_switch(&mut text)?;
    text.push_str(lines_of(alloc, behind)?.as_str())?;
    tell_bad_line(told, alloc, text.as_str())
}

/// The first bad line of a text with so many constants, behind seven others.
fn tell_constants(told: &mut String, alloc: Global, count: u32) -> Result<(), Trouble> {
    let mut text = String::from_str(alloc, FRONT)?;
    for number in 0..count {
        writeln!(text, "ldc int {number}")?;
    }
    tell_bad_line(told, alloc, text.as_str())
}

/// The words for a bad line.
fn tell_fault(told: &mut String, row: &str) -> Result<(), Trouble> {
    let line = number_of(row)?;
    Ok(write!(told, "{}", AsmFault::BadLine { line })?)
}

/// That the laws are there, which hold of themselves.
fn tell_laws(told: &mut String) -> Result<(), AllocError> {
    one_record();
    first_sample();
    forms_sample();
    frames_in_full();
    parameters_sample();
    told.push_str("there")
}
