// What the objects in memory do at small inputs.
use cb_io::{
    Failed, Folder, FolderError, Found, MemFolder, MemSink, MemSource, Sink, Source, SureFolder,
    SureSink, SureSource, text_of, utf8_of, write_all,
};
use cb_plain::{Numbers, OutOfMemory};
use cb_rows::{Trouble, number_of};
use std::alloc::{AllocError, Global};

pub(crate) fn tell(
    alloc: Global,
    told: &mut String,
    table: &str,
    row: &str,
) -> Result<(), Trouble> {
    match table {
        "source" => tell_source(alloc, told, row),
        "sink" => tell_sink(alloc, told),
        "folder" => tell_folder(alloc, told, row),
        "second file" => tell_second(alloc, told, row),
        "sure" => tell_sure(alloc, told, row),
        "words" => Ok(write!(told, "{}, {}", Failed, FolderError::Failed)?),
        "utf-8" => tell_utf8(alloc, told, row),
        "utf-8 into a failing sink" => tell_cut_utf8(alloc, told),
        _ => Err(Trouble::NotUnderstood),
    }
}

/// A list of the number of one call.
fn call(alloc: Global, number: u32) -> Result<Numbers, OutOfMemory> {
    let mut failing = Numbers::new(alloc);
    failing.push(number)?;
    Ok(failing)
}

/// Adds bytes as a text in quotes.
pub(crate) fn push_text(told: &mut String, bytes: &[u8]) -> Result<(), Trouble> {
    let text = str::from_utf8(bytes).map_err(|_| Trouble::Refused)?;
    Ok(write!(told, "{text:?}")?)
}

/// Adds what a call answered, and bytes behind it.
pub(crate) fn push_call(
    told: &mut String,
    answer: Result<usize, Failed>,
    bytes: &[u8],
) -> Result<(), Trouble> {
    match answer {
        Ok(count) => write!(told, "{count} ")?,
        Err(Failed) => told.push_str("failed ")?,
    }
    push_text(told, bytes)?;
    Ok(told.push(' ')?)
}

/// Five reads of a source of these bytes, which gives two at most and fails at the second call, and what is left. A read has four bytes to
/// fill, of which the first two are told.
fn tell_source(alloc: Global, told: &mut String, row: &str) -> Result<(), Trouble> {
    let bytes = Vec::from_slice(alloc, row.as_bytes())?;
    let mut source = MemSource::new(bytes, 2, call(alloc, 2)?);
    let mut buf = [0; 4];
    for _ in 0..5 {
        let answer = source.read(&mut buf);
        push_call(told, answer, &buf[..2])?;
    }
    push_text(told, source.remaining())
}

/// Two writes to a sink that takes a byte at a time and fails at the second call, the second one through a loan, and what the sink then has.
fn tell_sink(alloc: Global, told: &mut String) -> Result<(), Trouble> {
    let mut sink = MemSink::new(alloc, 1, call(alloc, 2)?);
    write!(told, "{:?} ", write_all(&mut sink, b"42\n").is_ok())?;
    push_text(told, sink.bytes())?;
    let mut lent = &mut sink;
    write!(told, " {:?} ", write_all(&mut lent, b"2\n").is_ok())?;
    push_text(told, sink.bytes())
}

/// A folder with two files.
fn two_files(alloc: Global) -> Result<SureFolder, Trouble> {
    let mut files = SureFolder::new(alloc);
    files.put("a/B.class", Vec::from_slice(alloc, b"abc")?)?;
    files.put("empty", Vec::new(alloc))?;
    Ok(files)
}

/// Adds what a folder answers, in words: the bytes behind `has`, which are ASCII.
fn push_found(told: &mut String, found: &Result<Found, FolderError>) -> Result<(), Trouble> {
    match found {
        Ok(Found::Bytes(bytes)) => {
            told.push_str("has ")?;
            push_text(told, bytes.as_slice())?;
        }
        Ok(Found::Absent) => told.push_str("absent")?,
        Ok(Found::TooLong) => told.push_str("too long")?,
        Err(FolderError::Failed) => told.push_str("failed")?,
        Err(FolderError::OutOfMemory) => return Err(Trouble::OutOfMemory),
    }
    Ok(told.push(' ')?)
}

/// Adds the answers of a folder to the reads of a row, one behind the other: each has a limit and a path.
pub(crate) fn push_reads<F: Folder>(
    alloc: Global,
    told: &mut String,
    folder: &mut F,
    row: &str,
) -> Result<(), Trouble> {
    for read in row.split(", ") {
        let (limit, path) = read.split_once(' ').ok_or(Trouble::NotUnderstood)?;
        push_found(told, &folder.read(alloc, path, number_of(limit)?))?;
    }
    Ok(())
}

/// Reads of a folder in memory that fails at the first call.
fn tell_folder(alloc: Global, told: &mut String, row: &str) -> Result<(), Trouble> {
    let mut folder = MemFolder::new(two_files(alloc)?, call(alloc, 1)?);
    push_reads(alloc, told, &mut folder, row)
}

/// Reads of a folder that has a second file at the path of the first one.
fn tell_second(alloc: Global, told: &mut String, row: &str) -> Result<(), Trouble> {
    let mut folder = two_files(alloc)?;
    folder.put("a/B.class", Vec::from_slice(alloc, b"xy")?)?;
    push_reads(alloc, told, &mut folder, row)
}

/// A read of two bytes of a source that never fails, what is left, and a write to a sink that never fails.
fn tell_sure(alloc: Global, told: &mut String, row: &str) -> Result<(), Trouble> {
    let mut source = SureSource::new(Vec::from_slice(alloc, row.as_bytes())?);
    let mut buf = [0; 2];
    let answer = source.read(&mut buf);
    push_call(told, answer, &buf)?;
    push_text(told, source.remaining())?;
    let mut sink = SureSink::new();
    write!(told, " {:?}", sink.write(b"42\n"))?;
    Ok(())
}

/// The units that hexadecimal digits tell.
fn units_of(alloc: Global, digits: &str) -> Result<Vec<u16>, Trouble> {
    let mut units = Vec::new(alloc);
    for word in digits.split_whitespace() {
        let unit = u16::from_str_radix(word, 16).map_err(|_| Trouble::NotUnderstood)?;
        units.push(unit)?;
    }
    Ok(units)
}

/// Adds bytes in hexadecimal digits.
fn push_digits(told: &mut String, bytes: &[u8]) -> Result<(), AllocError> {
    for byte in bytes {
        write!(told, "{byte:02X} ")?;
    }
    Ok(())
}

/// The bytes of units in UTF-8, which are those of the text.
fn tell_utf8(alloc: Global, told: &mut String, row: &str) -> Result<(), Trouble> {
    let units = units_of(alloc, row)?;
    let mut sink = MemSink::new(alloc, 3, Numbers::new(alloc));
    if utf8_of(&units, &mut sink).is_err() {
        return Err(Trouble::Refused);
    }
    if text_of(alloc, &units)?.as_bytes() != sink.bytes() {
        told.push_str("the text differs: ")?;
    }
    Ok(push_digits(told, sink.bytes())?)
}

/// What a sink has that takes a byte at a time and fails at the third call.
fn tell_cut_utf8(alloc: Global, told: &mut String) -> Result<(), Trouble> {
    let mut sink = MemSink::new(alloc, 1, call(alloc, 3)?);
    let is_ok = utf8_of(&[0x41, 0xA2, 0x42], &mut sink).is_ok();
    write!(told, "{is_ok} ")?;
    Ok(push_digits(told, sink.bytes())?)
}
