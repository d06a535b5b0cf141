// Class files as JVMS chapter 4 has them, and files with one fault each. That `<clinit>` is static, takes and gives
// nothing and has code is a rule of this machine.
use crate::given::{SE_8, file_of};
use crate::record::push_record;
use crate::spelled::spelled;
use cb_classfile::{ClassFault, read_class};
use cb_rows::Trouble;
use std::alloc::{AllocError, Global};
use std::fs;

/// What stands behind the version of a class `A` without members (JVMS §4.1).
const CONTENTS: &str = "0005 01 0001 41 07 0001 01 0010 6A6176612F6C616E672F4F626A656374 07 0003 \
    0021 0002 0004 0000 0000 0000 0000";

pub(crate) fn tell(
    rt: &HostRuntime,
    told: &mut String,
    table: &str,
    row: &str,
) -> Result<(), Trouble> {
    let alloc = rt.alloc();
    match table {
        "answers" => tell_answer(told, alloc, bytes_at(rt, row)?.as_slice()),
        "records" => tell_record(told, alloc, bytes_at(rt, row)?.as_slice()),
        "record with frames" => {
            tell_record(told, alloc, file_of(alloc, SE_8, "frames", row)?.as_slice())
        }
        "contents" => tell_contents(told, alloc, row),
        "versions" => tell_version(told, alloc, row),
        "calls by version" => tell_call(told, alloc, row),
        _ => tell_part(told, alloc, table, row),
    }
}

/// The bytes of a file in `data/`.
pub(crate) fn bytes_at(rt: &HostRuntime, name: &str) -> Result<Vec<u8>, Trouble> {
    fs::read(rt, name).map_err(|_| Trouble::NotUnderstood)
}

/// Adds what the reader answers, in a word or two.
pub(crate) fn tell_answer(told: &mut String, alloc: Global, bytes: &[u8]) -> Result<(), Trouble> {
    match read_class(alloc, bytes).err() {
        None => Ok(told.push_str("read")?),
        Some(fault) => tell_fault(told, fault),
    }
}

fn tell_fault(told: &mut String, fault: ClassFault) -> Result<(), Trouble> {
    match fault {
        ClassFault::BadVersion { major } => write!(told, "version {major}")?,
        ClassFault::Malformed => told.push_str("malformed")?,
        ClassFault::Unsupported { item } => write!(told, "{item}")?,
        ClassFault::OutOfMemory => return Err(Trouble::OutOfMemory),
    }
    Ok(())
}

/// What the reader answers to a file with the part of a row, which stands behind what it shows.
fn tell_part(told: &mut String, alloc: Global, parts: &str, row: &str) -> Result<(), Trouble> {
    let (_, part) = row.split_once(" | ").unwrap_or(("", row));
    let bytes = file_of(alloc, SE_8, parts, part)?;
    tell_answer(told, alloc, bytes.as_slice())
}

/// The record that bytes spell, and what is answered to them without their last byte and with one more.
fn tell_record(told: &mut String, alloc: Global, bytes: &[u8]) -> Result<(), Trouble> {
    tell_whole(told, alloc, bytes)?;
    tell_beside(told, alloc, bytes)
}

/// The record that bytes spell.
fn tell_whole(told: &mut String, alloc: Global, bytes: &[u8]) -> Result<(), Trouble> {
    match read_class(alloc, bytes) {
        Ok(class) => {
            let pushed = push_record(told, &class);
            drop(class);
            Ok(pushed?)
        }
        Err(fault) => tell_fault(told, fault),
    }
}

/// What is answered to bytes without their last one, and with one more.
fn tell_beside(told: &mut String, alloc: Global, bytes: &[u8]) -> Result<(), Trouble> {
    let (_, cut) = bytes.split_last().ok_or(Trouble::NotUnderstood)?;
    told.push_str("one byte fewer: ")?;
    tell_answer(told, alloc, cut)?;
    told.push_str(", one more: ")?;
    let longer = longer(alloc, bytes)?;
    tell_answer(told, alloc, longer.as_slice())
}

/// Bytes with one more.
fn longer(alloc: Global, bytes: &[u8]) -> Result<Vec<u8>, AllocError> {
    let mut longer = bytes.to_vec(alloc)?;
    longer.push(0)?;
    Ok(longer)
}

/// The record of the class without members, or how many of the fronts of its bytes that aren't the whole are malformed.
fn tell_contents(told: &mut String, alloc: Global, row: &str) -> Result<(), Trouble> {
    let bytes = spelled(alloc, &[SE_8, CONTENTS])?;
    match row {
        "record" => tell_record(told, alloc, bytes.as_slice()),
        _ => Ok(tell_fronts(told, alloc, bytes.as_slice())?),
    }
}

fn tell_fronts(told: &mut String, alloc: Global, bytes: &[u8]) -> Result<(), AllocError> {
    let mut malformed: usize = 0;
    for length in 0..bytes.len() {
        if read_class(alloc, &bytes[..length]).err() == Some(ClassFault::Malformed) {
            malformed = malformed.saturating_add(1);
        }
    }
    write!(told, "{malformed} malformed of {}", bytes.len())
}

/// What the reader answers to what stands before a colon, and what stands behind it, or those contents.
fn tell_version(told: &mut String, alloc: Global, row: &str) -> Result<(), Trouble> {
    let (version, behind) = row.split_once(':').ok_or(Trouble::NotUnderstood)?;
    let behind = if behind == " contents" {
        CONTENTS
    } else {
        behind
    };
    let bytes = spelled(alloc, &[version, behind])?;
    tell_answer(told, alloc, bytes.as_slice())
}

/// What the reader answers to a file of a version with code.
fn tell_call(told: &mut String, alloc: Global, row: &str) -> Result<(), Trouble> {
    let (version, code) = row.split_once(':').ok_or(Trouble::NotUnderstood)?;
    let bytes = file_of(alloc, version, "code", code)?;
    tell_answer(told, alloc, bytes.as_slice())
}
