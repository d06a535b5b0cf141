// What the objects do over real files.
use crate::io::{push_call, push_reads};
use cb_io::{DirFolder, Sink, Source, StreamSink, StreamSource, write_all};
use cb_rows::Trouble;
use std::os::unix::fs::symlink;
use std::{fs, io};

pub(crate) fn tell(
    rt: &HostRuntime,
    told: &mut String,
    table: &str,
    row: &str,
) -> Result<(), Trouble> {
    match table {
        "folder" => tell_folder(rt, told, row),
        "odd names" => tell_odd(rt, told),
        "streams" => tell_streams(rt, told),
        "failing streams" => tell_failing(rt, told),
        _ => Err(Trouble::NotUnderstood),
    }
}

/// Reads of a folder of the system.
fn tell_folder(rt: &HostRuntime, told: &mut String, row: &str) -> Result<(), Trouble> {
    make_folder(rt).map_err(|_| Trouble::Refused)?;
    push_reads(rt.alloc(), told, &mut DirFolder::new(rt), row)?;
    fs::remove_dir_all(rt, "plain").map_err(|_| Trouble::Refused)
}

/// Makes a folder with a file, a folder, a link to the file and a link to itself.
fn make_folder(rt: &HostRuntime) -> io::Result<()> {
    fs::create_dir(rt, "plain")?;
    fs::create_dir(rt, "plain/folder")?;
    fs::write(rt, "plain/file", "abc")?;
    symlink(rt, "file", "plain/link")?;
    symlink(rt, "loop", "plain/loop")?;
    Ok(())
}

/// Reads of a file whose name has a byte 0, and of one whose name is longer than the system has.
fn tell_odd(rt: &HostRuntime, told: &mut String) -> Result<(), Trouble> {
    let mut folder = DirFolder::new(rt);
    push_reads(rt.alloc(), told, &mut folder, "3 stdin\0")?;
    let read = format!(in rt.alloc(); "3 {:x>256}", "x")?;
    push_reads(rt.alloc(), told, &mut folder, read.as_str())
}

/// Adds the answer of a read of four bytes, and those that were read.
fn push_read<S: Source>(told: &mut String, source: &mut S) -> Result<(), Trouble> {
    let mut buf = [0; 4];
    let answer = source.read(&mut buf);
    let count = answer.unwrap_or(0).min(4);
    push_call(told, answer, &buf[..count])
}

/// A write to a file, and two reads of it.
fn tell_streams(rt: &HostRuntime, told: &mut String) -> Result<(), Trouble> {
    let file = fs::create(rt, "stream").map_err(|_| Trouble::Refused)?;
    let mut sink = StreamSink::new(file);
    write!(told, "{} ", write_all(&mut sink, b"42\n").is_ok())?;
    let file = fs::open(rt, "stream").map_err(|_| Trouble::Refused)?;
    let mut source = StreamSource::new(file);
    push_read(told, &mut source)?;
    push_read(told, &mut source)?;
    fs::remove_file(rt, "stream").map_err(|_| Trouble::Refused)
}

/// A read of a folder, and writes of a byte and of none to what has no room.
fn tell_failing(rt: &HostRuntime, told: &mut String) -> Result<(), Trouble> {
    fs::create_dir(rt, "unread").map_err(|_| Trouble::Refused)?;
    let folder = fs::open(rt, "unread").map_err(|_| Trouble::Refused)?;
    push_read(told, &mut StreamSource::new(folder))?;
    let mut no_room = [0u8; 0];
    let mut sink = StreamSink::new(no_room.as_mut_slice());
    push_call(told, sink.write(b"4"), b"")?;
    push_call(told, sink.write(b""), b"")?;
    fs::remove_dir(rt, "unread").map_err(|_| Trouble::Refused)
}
