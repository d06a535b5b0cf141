// A folder in memory that never fails.
ghost use Rattle.std.specs.Prelude.{◌≡◌, OnOk, OnErr};
ghost use Rattle.std.specs.FinMap.{empty, insert};

use crate::{Folder, FolderError, Found};
use cb_plain::OutOfMemory;
use std::alloc::Global;
use std::collections::BTreeMap;
use std::marker::Model;

/// Files in memory, which contracts see as a finite map from paths to bytes. No call fails, but reading a file
/// copies it.
#[derive(Debug, Drop)]
pub struct SureFolder {
    alloc: Global,
    files: BTreeMap<String, Vec<u8>>,
}

impl Model for SureFolder {
    ghost use Rattle.cb_io.specs.Folder.{Files, files_code, files_of};

    ghost Value = { Files };

    ghost coded = { files_code };

    ghost view = { λ folder. files_of folder.files };
}

impl SureFolder {
    /// A folder without files. It takes memory from `alloc` as files are put into it.
    pub fn new(alloc: Global) -> Self
        ensures { result ≡ empty }
    {
        SureFolder {
            alloc,
            files: BTreeMap::new(alloc),
        }
    }

    /// Puts a file at a path, in the place of one that is there. A refused growth changes nothing.
    pub fn put(&mut self, path: &str, bytes: Vec<u8>) -> Result<(), OutOfMemory>
        ensures ok { OnOk result (self.new ≡ insert self.old path.now bytes.items) }
        ensures err { OnErr result (self.new ≡ self.old) }
    {
        let path = String::from_str(self.alloc, path)?;
        self.files.insert(path, bytes)?;
        Ok(())
    }
}

impl Folder for SureFolder {
    ghost use Rattle.std.specs.Prelude.{Some};

    ghost files = { λ folder. Some folder };

    ghost faults = { λ _. 0 };

    fn read(&mut self, alloc: Global, path: &str, limit: usize) -> Result<Found, FolderError> {
        let Some(bytes) = self.files.get(path) else {
            return Ok(Found::Absent);
        };
        if bytes.len() > limit {
            return Ok(Found::TooLong);
        }
        Ok(Found::Bytes(Vec::from_slice(alloc, bytes)?))
    }
}
