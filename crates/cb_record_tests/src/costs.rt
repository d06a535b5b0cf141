// Tables of the greatest size, which are read in seconds.
use crate::classfile::tell_answer;
use crate::spelled::spelled;
use cb_rows::{Trouble, number_of};
use std::alloc::{AllocError, Global};

/// What stands before the constants of a class with 20,000 fields, and their name of 30,000 units.
const ONE_NAME: &str =
    "CAFEBABE 0000 0034 4E26 01 'A' 07 0001 01 'java/lang/Object' 07 0003 01 '30000*n'";

/// What stands before the constants of a class with 65,535 fields.
const MANY_NAMES: &str = "CAFEBABE 0000 0034 0300 01 'A' 07 0001 01 'java/lang/Object' 07 0003";

/// What stands before the body of a class with a method.
const METHOD: &str = "CAFEBABE 0000 0034 0008 01 'A' 07 0001 01 'java/lang/Object' 07 0003 \
    01 'f' 01 '()V' 01 'Code' 0021 0002 0004 0000 0000 0001 0001 0005 0006 0001 0007";

/// What the reader answers to a class of the kind that the table names.
pub(crate) fn tell(
    alloc: Global,
    told: &mut String,
    table: &str,
    row: &str,
) -> Result<(), Trouble> {
    let mut bytes = Vec::new(alloc);
    push_table(&mut bytes, alloc, table, row)?;
    tell_answer(told, alloc, bytes.as_slice())
}

/// Adds that class.
fn push_table(bytes: &mut Vec<u8>, alloc: Global, table: &str, row: &str) -> Result<(), Trouble> {
    match table {
        "one name" => push_one_name(bytes, alloc),
        "many names" => push_many_names(bytes, alloc, row),
        "code" => push_class(bytes, alloc, row),
        _ => Err(Trouble::NotUnderstood),
    }
}

/// Adds what a text spells.
fn push_spelled(bytes: &mut Vec<u8>, alloc: Global, text: &str) -> Result<(), Trouble> {
    let spelled = spelled(alloc, &[text])?;
    Ok(bytes.extend_from_slice(&spelled)?)
}

/// Two letters for the digits of a byte.
fn letters(byte: u8) -> [u8; 2] {
    [byte >> 4 | 0x40, byte & 0x0F | 0x40]
}

/// Adds the types of 20,000 classes of four letters.
fn push_long_types(bytes: &mut Vec<u8>) -> Result<(), AllocError> {
    for index in 6..20_006_u16 {
        let [high, low] = index.to_be_bytes();
        let [a, b] = letters(high);
        let [c, d] = letters(low);
        bytes.extend_from_slice(&[1, 0, 6, b'L', a, b, c, d, b';'])?;
    }
    Ok(())
}

/// Adds a field of a name for each of the types from one index on up to another.
fn push_fields(bytes: &mut Vec<u8>, name: u16, first: u16, end: u16) -> Result<(), AllocError> {
    let [a, b] = name.to_be_bytes();
    for index in first..end {
        let [c, d] = index.to_be_bytes();
        bytes.extend_from_slice(&[0, 0, a, b, c, d, 0, 0])?;
    }
    Ok(())
}

/// Adds a class with 20,000 fields of different classes. They share one name of 30,000 units.
fn push_one_name(bytes: &mut Vec<u8>, alloc: Global) -> Result<(), Trouble> {
    push_spelled(bytes, alloc, ONE_NAME)?;
    push_long_types(bytes)?;
    push_spelled(bytes, alloc, "0021 0002 0004 0000 4E20")?;
    push_fields(bytes, 5, 6, 20_006)?;
    push_spelled(bytes, alloc, "0000 0000")
}

/// Adds texts of no unit up to the index 0100.
fn push_empty_texts(bytes: &mut Vec<u8>) -> Result<(), AllocError> {
    for _ in 5..0x100_u16 {
        bytes.extend_from_slice(&[1, 0, 0])?;
    }
    Ok(())
}

/// Adds 256 names of two letters.
fn push_short_names(bytes: &mut Vec<u8>) -> Result<(), AllocError> {
    for byte in 0..=255_u8 {
        let [a, b] = letters(byte);
        bytes.extend_from_slice(&[1, 0, 2, a, b])?;
    }
    Ok(())
}

/// Adds the types of the 256 classes of these names.
fn push_short_types(bytes: &mut Vec<u8>) -> Result<(), AllocError> {
    for byte in 0..=255_u8 {
        let [a, b] = letters(byte);
        bytes.extend_from_slice(&[1, 0, 4, b'L', a, b, b';'])?;
    }
    Ok(())
}

/// Adds a field of each name and type but for those of the last name and the last two types.
fn push_all_fields(bytes: &mut Vec<u8>) -> Result<(), AllocError> {
    for name in 0x100..0x1FF_u16 {
        push_fields(bytes, name, 0x200, 0x300)?;
    }
    push_fields(bytes, 0x1FF, 0x200, 0x2FE)
}

/// Adds a class with 65,535 fields of 256 names and 256 types, the last of which is told. Of that name there is a field of each type but for
/// those at 02FE and 02FF.
fn push_many_names(bytes: &mut Vec<u8>, alloc: Global, last: &str) -> Result<(), Trouble> {
    push_spelled(bytes, alloc, MANY_NAMES)?;
    push_empty_texts(bytes)?;
    push_short_names(bytes)?;
    push_short_types(bytes)?;
    push_spelled(bytes, alloc, "0021 0002 0004 0000 FFFF")?;
    push_all_fields(bytes)?;
    push_spelled(bytes, alloc, last)
}

/// Adds so many handlers, from the first places to the place FFFF.
fn push_handlers(bytes: &mut Vec<u8>, count: u16) -> Result<(), AllocError> {
    bytes.extend_from_slice(&count.to_be_bytes())?;
    for place in 0..count {
        let [a, b] = place.to_be_bytes();
        bytes.extend_from_slice(&[a, b, 0xFF, 0xFF, a, b, 0, 0])?;
    }
    Ok(())
}

/// Adds code of so many `nop`.
fn push_code(bytes: &mut Vec<u8>, size: u32) -> Result<(), AllocError> {
    bytes.extend_from_slice(&size.to_be_bytes())?;
    for _ in 0..size {
        bytes.push(0)?;
    }
    Ok(())
}

/// Adds a class with a method of so many `nop` and a handler from each of the first ones to the place FFFF.
fn push_class(bytes: &mut Vec<u8>, alloc: Global, row: &str) -> Result<(), Trouble> {
    let (size, count) = row.split_once(' ').ok_or(Trouble::NotUnderstood)?;
    let size = number_of::<u32>(size)?;
    let count = number_of::<u16>(count)?;
    let length = size.wrapping_add(8 * u32::from(count)).wrapping_add(12);
    push_spelled(bytes, alloc, METHOD)?;
    bytes.extend_from_slice(&length.to_be_bytes())?;
    bytes.extend_from_slice(&[0, 0, 0, 1])?;
    push_code(bytes, size)?;
    push_handlers(bytes, count)?;
    push_spelled(bytes, alloc, "0000 0000")
}
