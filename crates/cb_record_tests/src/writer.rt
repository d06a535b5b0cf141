// Records that are written back.
use crate::classfile::bytes_at;
use cb_classfile::read_any_class;
use cb_rows::Trouble;
use cb_writer::{well_formed, well_formed_by_numbers, write_class};
use std::alloc::Global;

/// Whether a file's record is written as the file was, how many bytes fewer it has, whether these are written as they were, and whether their
/// record is well formed by both tests.
pub(crate) fn tell(rt: &HostRuntime, told: &mut String, row: &str) -> Result<(), Trouble> {
    let file = bytes_at(rt, row)?;
    let bytes = written(rt.alloc(), file.as_slice())?;
    let same = bytes.as_slice() == file.as_slice();
    let fewer = file.len().saturating_sub(bytes.len());
    write!(told, "as it was {same}, {fewer} bytes fewer, ")?;
    tell_again(told, rt.alloc(), bytes.as_slice())
}

/// The bytes of the record that bytes spell: nobody asked whether it is well formed.
fn written(alloc: Global, bytes: &[u8]) -> Result<Vec<u8>, Trouble> {
    match read_any_class(alloc, bytes) {
        Ok(class) => {
            let bytes = write_class(alloc, &class);
            drop(class);
            Ok(bytes?)
        }
        Err(_) => Err(Trouble::Refused),
    }
}

/// Whether bytes are written as they were, and whether the record that they spell is well formed by both tests.
fn tell_again(told: &mut String, alloc: Global, bytes: &[u8]) -> Result<(), Trouble> {
    let same = written(alloc, bytes)?.as_slice() == bytes;
    write!(told, "then {same}, ")?;
    match read_any_class(alloc, bytes) {
        Ok(class) => {
            let formed = (well_formed(&class), well_formed_by_numbers(alloc, &class));
            drop(class);
            Ok(write!(told, "well formed {} {}", formed.0, formed.1?)?)
        }
        Err(_) => Err(Trouble::Refused),
    }
}
