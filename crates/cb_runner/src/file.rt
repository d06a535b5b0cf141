// A file of a class.
ghost use Rattle.std.specs.Prelude.{◌≡◌, ℕ, List, Option, IfErr, IfOk, IsErrOf};
ghost use Rattle.cb_io.specs.Faults.{CountsFaults};
ghost use Rattle.cb_io.specs.Folder.{FindsAt};
ghost use Rattle.cb_runner.specs.Answer.{MayStandAt};
ghost use Rattle.cb_runner.specs.Run.{file_limit};
ghost use Rattle.cb_runner.specs.Inner.{IsUnfound};
ghost use Rattle.cb_runner.specs.declared.stop.Stop.TheVariants as stops;

use crate::stop::Stop;
use cb_io::{Folder, FolderError, Found};
use std::alloc::Global;

/// The most bytes of a class file.
pub(crate) const MAX_FILE_LENGTH: usize = 1_048_576;

/// What a folder has at a path, as far as a class file may be long.
pub(crate) fn find_file<F: Folder>(alloc: Global, path: &str, folder: &mut F) -> Result<Found, Stop>
    ensures kept { F.files folder.new ≡ F.files folder.old }
    ensures found { IfOk result (λ found. (file : Option (List ℕ)) × MayStandAt (F.files folder.old) path.now file
        × FindsAt file file_limit found) }
    ensures stopped { IfErr result IsUnfound }
    ensures fault { CountsFaults (F.faults folder.old) (F.faults folder.new) (IsErrOf result stops.FolderFault) }
{
    match folder.read(alloc, path, MAX_FILE_LENGTH) {
        Ok(found) => Ok(found),
        Err(FolderError::Failed) => Err(Stop::FolderFault),
        Err(FolderError::OutOfMemory) => Err(Stop::OutOfMemory),
    }
}
