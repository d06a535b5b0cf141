// Bytes that lines of the text make.
use crate::data_file::data_of;
use crate::number::{byte_of, number_of};
use crate::trouble::Trouble;
use cb_asm::assemble_bytes;
use cb_io::Folder;
use cb_writer::write_class;
use std::alloc::Global;
use std::collections::BTreeMap;

/// Bytes by their names.
pub(crate) type Named = BTreeMap<String, Vec<u8>>;

/// Adds what a line says to bytes, or changes them.
pub(crate) fn change<F: Folder>(
    alloc: Global,
    bytes: &mut Vec<u8>,
    named: &Named,
    data_folder: &mut F,
    keyword: &str,
    rest: &str,
) -> Result<(), Trouble> {
    match keyword {
        "|" => {
            bytes.extend_from_slice(rest.as_bytes())?;
            bytes.push(b'\n')?;
        }
        "text" => bytes.extend_from_slice(rest.as_bytes())?,
        "hex" => add_hex(bytes, rest)?,
        "fill" => fill(bytes, rest)?,
        "same" => {
            let same = named.get(rest).ok_or(Trouble::UnknownName)?;
            bytes.extend_from_slice(same.as_slice())?;
        }
        "data" => {
            let file = data_of(alloc, data_folder, rest)?;
            bytes.extend_from_slice(file.as_slice())?;
        }
        "cut" => cut(bytes, number_of(rest)?)?,
        "assemble" if rest.is_empty() => *bytes = assembled(alloc, bytes.as_slice())?,
        _ => return Err(Trouble::NotUnderstood),
    }
    Ok(())
}

/// Adds bytes that are written in hexadecimal.
fn add_hex(bytes: &mut Vec<u8>, words: &str) -> Result<(), Trouble> {
    for word in words.split(' ') {
        bytes.push(byte_of(word)?)?;
    }
    Ok(())
}

/// Adds a byte as often as a line says.
fn fill(bytes: &mut Vec<u8>, rest: &str) -> Result<(), Trouble> {
    let Some((count, byte)) = rest.split_once(' ') else {
        return Err(Trouble::NotUnderstood);
    };
    let length = bytes.len().saturating_add(number_of(count)?);
    bytes.resize(length, byte_of(byte)?)?;
    Ok(())
}

/// Takes bytes away at the end.
fn cut(bytes: &mut Vec<u8>, count: usize) -> Result<(), Trouble> {
    let Some(length) = bytes.len().checked_sub(count) else {
        return Err(Trouble::TooFew);
    };
    bytes.truncate(length);
    Ok(())
}

/// The class file of an assembly text.
pub(crate) fn assembled(alloc: Global, text: &[u8]) -> Result<Vec<u8>, Trouble> {
    let class = assemble_bytes(alloc, text)?;
    Ok(write_class(alloc, &class)?)
}
