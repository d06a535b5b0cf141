// The folders of the system.
ghost use Rattle.std.specs.Prelude.{◌≡◌, Contains, IfOk, IsErrOf, None, Ok};
ghost use Rattle.cb_io.specs.Faults.{CountsFaults};
ghost use Rattle.cb_io.specs.Folder.{IsThere, IsWithin};
ghost use Rattle.cb_io.specs.System.{SeesPlainFile};
ghost use Rattle.cb_io.specs.declared.folder.FolderError.TheVariants.{Failed};
ghost use Rattle.cb_io.specs.declared.folder.Found.TheVariants.{Absent};

use crate::whole_file::whole_within;
use crate::{Folder, FolderError, Found};
use std::alloc::Global;
use std::fs::Metadata;
use std::io::ErrorKind;
use std::marker::Model;
use std::rt::Files;
use std::{fs, io};

/// The files of the system. It tells nothing of content, and contracts see it as its count of faults.
///
/// A path without a plain file at its end is absent: nothing is there, a folder or a device is, a part of it is no
/// folder, it is longer than the system takes, or it holds U+0000. Each other error of the system is want of memory or
/// a fault.
#[derive(Debug, Drop)]
pub struct DirFolder<F: Files> {
    files: F,
    faults: u64,
}

impl<F: Files> Model for DirFolder<F> {
    ghost use Rattle.std.specs.Prelude.{ℕ};

    ghost Value = { ℕ };

    ghost view = { λ folder. folder.faults };
}

impl<F: Files> DirFolder<F> {
    /// The folders that `files` leads to.
    pub fn new(files: F) -> Self
        ensures { result ≡ 0 }
    {
        DirFolder { files, faults: 0 }
    }
}

impl<F: Files> Folder for DirFolder<F> {
    ghost files = { λ _. None };

    ghost faults = { λ faults. faults };

    fn read(&mut self, alloc: Global, path: &str, limit: usize) -> Result<Found, FolderError>
        ensures within { IfOk result (IsWithin limit) }
        ensures cause { CountsFaults self.old self.new (IsErrOf result Failed) }
        ensures nul { Contains path.now 0 → result ≡ Ok Absent }
    {
        let answer = find(&self.files, alloc, path, limit);
        if let Err(FolderError::Failed) = &answer {
            self.faults = self.faults.saturating_add(1);
        }
        answer
    }
}

/// What stands at a path. No name has U+0000, which is the byte 0.
fn find<F: Files>(files: &F, alloc: Global, path: &str, limit: usize) -> Result<Found, FolderError>
    ensures within { IfOk result (IsWithin limit) }
    ensures nul { Contains path.now 0 → result ≡ Ok Absent }
{
    if path.as_bytes().contains(&0) || !is_plain_file(fs::metadata(files, path))? {
        return Ok(Found::Absent);
    }
    read_file(files, alloc, path, limit)
}

/// What a plain file has, of which no error says that it is absent.
fn read_file<F: Files>(
    files: &F,
    alloc: Global,
    path: &str,
    limit: usize,
) -> Result<Found, FolderError>
    ensures within { IfOk result (IsWithin limit) }
    ensures there { IfOk result IsThere }
{
    let file = fs::open(files, path)?;
    Ok(whole_within(alloc, file, limit)?)
}

/// Whether what was seen at a path is a plain file, or a link that leads to one.
fn is_plain_file(seen: io::Result<Metadata>) -> io::Result<bool>
    ensures { SeesPlainFile seen result }
{
    match seen {
        Ok(metadata) => Ok(metadata.is_file()),
        Err(error) => match error.kind() {
            ErrorKind::NotFound | ErrorKind::NotADirectory | ErrorKind::InvalidFilename => Ok(
                false,
            ),
            _ => Err(error),
        },
    }
}
