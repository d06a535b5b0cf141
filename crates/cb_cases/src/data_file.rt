// The files beside the program.
use crate::trouble::Trouble;
use cb_io::{Folder, FolderError, Found};
use std::alloc::Global;

/// The most bytes of a file that are read.
const LIMIT: usize = 1_048_576;

/// The bytes of a file beside the program.
pub(crate) fn data_of<F: Folder>(
    alloc: Global,
    data_folder: &mut F,
    name: &str,
) -> Result<Vec<u8>, Trouble> {
    match data_folder.read(alloc, name, LIMIT) {
        Ok(Found::Bytes(bytes)) => Ok(bytes),
        Ok(Found::Absent | Found::TooLong) | Err(FolderError::Failed) => Err(Trouble::UnknownData),
        Err(FolderError::OutOfMemory) => Err(Trouble::OutOfMemory),
    }
}

/// The text of a file beside the program.
pub(crate) fn text_of<F: Folder>(
    alloc: Global,
    data_folder: &mut F,
    name: &str,
) -> Result<String, Trouble> {
    let bytes = data_of(alloc, data_folder, name)?;
    String::from_utf8(bytes).map_err(|_| Trouble::NotUnderstood)
}
