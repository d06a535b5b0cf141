// A folder in memory that fails at listed calls.
ghost use Rattle.std.specs.Prelude.{◌≡◌, ◌↔◌, IfOk, IfSome, IsErrOf, Some};
ghost use Rattle.cb_io.specs.Calls.{FailsNext, first_call, counted};
ghost use Rattle.cb_io.specs.Faults.{CountsFaults};
ghost use Rattle.cb_io.specs.Folder.{Finds, IsWithin};

use crate::calls::Calls;
use crate::{Folder, FolderError, Found, SureFolder};
use cb_plain::Numbers;
use std::alloc::Global;
use std::marker::Model;

/// Files in memory, in a folder whose calls fail that are listed by their numbers, counted from 1.
#[derive(Debug, Drop)]
pub struct MemFolder {
    files: SureFolder,
    calls: Calls,
}

impl Model for MemFolder {
    ghost use Rattle.cb_io.specs.Memory.{FolderInMemory, folder_code};

    ghost Value = { FolderInMemory };

    ghost coded = { folder_code };

    ghost view = { λ folder. record { files = folder.files; calls = folder.calls } };
}

impl MemFolder {
    /// A folder of these files that fails at these calls.
    pub fn new(files: SureFolder, failing: Numbers) -> Self
        ensures files { result.files ≡ files }
        ensures calls { result.calls ≡ first_call failing }
    {
        MemFolder {
            files,
            calls: Calls::new(failing),
        }
    }
}

impl Folder for MemFolder {
    ghost files = { λ folder. Some folder.files };

    ghost faults = { λ folder. folder.calls.faults };

    fn read(&mut self, alloc: Global, path: &str, limit: usize) -> Result<Found, FolderError>
        ensures kept { self.new.files ≡ self.old.files }
        ensures found { IfOk result (Finds self.old.files path.now limit) }
        ensures within { IfOk result (IsWithin limit) }
        ensures cause { CountsFaults self.old.calls.faults self.new.calls.faults (IsErrOf result FolderError.Failed) }
        ensures listed { IsErrOf result FolderError.Failed ↔ FailsNext self.old.calls }
        ensures counted { self.new.calls.made ≡ counted self.old.calls.made }
        ensures failing { self.new.calls.failing ≡ self.old.calls.failing }
    {
        if self.calls.fails() {
            return Err(FolderError::Failed);
        }
        self.files.read(alloc, path, limit)
    }
}
