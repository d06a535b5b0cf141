// A folder of files.
ghost use Rattle.std.specs.Prelude.{◌≡◌, ◌≤◌, ℕ, Option, IfOk, IfSome, IsErrOf, Some};
ghost use Rattle.std.specs.IoError.{error_kind};
ghost use Rattle.cb_io.specs.Faults.{CountsFaults};
ghost use Rattle.cb_io.specs.Folder.{Files, Finds, IsWithin};
ghost use Rattle.cb_io.specs.Messages.{folder_error_text};
ghost use Rattle.cb_io.specs.System.{folder_error};
ghost use Rattle.cb_io.specs.declared.folder.FolderError.TheVariants.{OutOfMemory};

use std::alloc::{AllocError, AllocFailed, Global};
use std::error::Error;
use std::io::ErrorKind;
use std::{fmt, io};

/// What a folder has at a path.
#[derive(Debug, Drop)]
pub enum Found {
    /// The whole file.
    Bytes(Vec<u8>),
    /// There is no file.
    Absent,
    /// The file has more bytes than were allowed.
    TooLong,
}

/// Why a folder has no answer.
#[derive(Clone, Copy, Debug, PartialEq, Eq)]
pub enum FolderError {
    /// The call failed, and the folder's count of faults rose.
    Failed,
    /// No memory was to be had for the file.
    OutOfMemory,
}

impl fmt::Display for FolderError {
    ghost output = { λ error. Some (folder_error_text error) };

    fn fmt<W: fmt::Write>(&self, f: &mut fmt::Formatter<W>) -> fmt::Result {
        f.write_str(match self {
            FolderError::Failed => "the folder failed",
            FolderError::OutOfMemory => "out of memory",
        })
    }
}

impl Error for FolderError {}

impl From<AllocError> for FolderError {
    ghost from_gives = { λ _ error. error ≡ OutOfMemory };

    fn from(_: AllocError) -> Self {
        FolderError::OutOfMemory
    }
}

impl<T: Drop> From<AllocFailed<T>> for FolderError {
    ghost from_gives = { λ _ error. error ≡ OutOfMemory };

    fn from(_: AllocFailed<T>) -> Self {
        FolderError::OutOfMemory
    }
}

impl From<io::Error> for FolderError {
    ghost from_gives = { λ error answer. answer ≡ folder_error (error_kind error) };

    fn from(error: io::Error) -> Self {
        match error.kind() {
            ErrorKind::OutOfMemory => FolderError::OutOfMemory,
            _ => FolderError::Failed,
        }
    }
}

/// Files by their paths.
pub trait Folder {
    /// The files, where the folder tells them.
    ghost files: { Self → Option Files };

    /// How often a call has failed.
    ghost faults: { Self → ℕ };

    /// What stands at `path`, if it has at most `limit` bytes. Takes time in the bytes that are read.
    fn read(&mut self, alloc: Global, path: &str, limit: usize) -> Result<Found, FolderError>
        ensures kept { files self.new ≡ files self.old }
        ensures found { IfSome (files self.old) (λ told. IfOk result (Finds told path.now limit)) }
        ensures within { IfOk result (IsWithin limit) }
        ensures cause { CountsFaults (faults self.old) (faults self.new) (IsErrOf result FolderError.Failed) };
}
