// Texts in modified UTF-8, and their units.
use cb_rows::{Trouble, bytes_of};
use cb_text::{OutOfMemory, PoolFault, TextFault, Units, decode_modified, encode_modified};
use std::alloc::{AllocError, Global};

pub(crate) fn tell(
    alloc: Global,
    told: &mut String,
    table: &str,
    row: &str,
) -> Result<(), Trouble> {
    match table {
        "modified" => tell_modified(alloc, told, row),
        "units" => tell_units(alloc, told, row),
        "words" => {
            write!(told, "{}, {}, ", TextFault::BadText, TextFault::OutOfMemory)?;
            Ok(write!(told, "{}, {}", PoolFault::BadPool, PoolFault::OutOfMemory)?)
        }
        _ => Err(Trouble::NotUnderstood),
    }
}

/// Adds bytes in hexadecimal digits.
pub(crate) fn push_digits(told: &mut String, bytes: &[u8]) -> Result<(), AllocError> {
    for byte in bytes {
        write!(told, " {byte:02X}")?;
    }
    Ok(())
}

/// The units of bytes in modified UTF-8, and the bytes that are written of these, or the fault.
fn tell_modified(alloc: Global, told: &mut String, row: &str) -> Result<(), Trouble> {
    let bytes = bytes_of(alloc, row)?;
    match decode_modified(alloc, bytes.as_slice()) {
        Ok(units) => {
            write!(told, "{:?}", units.as_slice())?;
            let again = encode_modified(alloc, units.as_slice())?;
            push_digits(told, again.as_slice())?;
        }
        Err(fault) => write!(told, "{fault:?}")?,
    }
    Ok(())
}

/// The units of a row, one behind the other.
fn units(alloc: Global, row: &str) -> Result<Units, Trouble> {
    let mut units = Units::new(alloc);
    for word in row.split_whitespace() {
        let unit = u16::from_str_radix(word, 16).map_err(|_| Trouble::NotUnderstood)?;
        units.push(unit)?;
    }
    Ok(units)
}

/// Units that are read one by one into others, with room for them.
fn again(alloc: Global, units: &Units) -> Result<Units, OutOfMemory> {
    let mut again = Units::with_capacity(alloc, units.len())?;
    for unit in units {
        again.push(*unit)?;
    }
    Ok(again)
}

/// How many units there are, whether there are none, those that are read one by one, and the first.
fn tell_units(alloc: Global, told: &mut String, row: &str) -> Result<(), Trouble> {
    let units = units(alloc, row)?;
    write!(told, "{} {}", units.len(), units.is_empty())?;
    write!(told, " {:?}", again(alloc, &units)?.as_slice())?;
    if !units.is_empty() {
        write!(told, " {}", *units.get(0))?;
    }
    Ok(())
}
