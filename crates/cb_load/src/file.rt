// What a folder has for the name of a class.
ghost use Rattle.std.specs.Prelude.{◌≡◌, IfErr, IfOk, IsErrOf};
ghost use Rattle.cb_io.specs.Faults.{CountsFaults};
ghost use Rattle.cb_link.specs.declared.refusal.Refusal.TheVariants as refusals;
ghost use Rattle.cb_load.specs.InnerTurns.{AreAbsent, IsFound, IsOutside};

use crate::class_names::ClassNames;
use crate::path::path_of;
use cb_io::{Folder, FolderError, Found};
use cb_link::Refusal;
use std::alloc::Global;

/// The most bytes of a class file.
pub(crate) const FILE_LIMIT: usize = 1_048_576;

/// What a folder has for a name, as far as a class file may be long. It isn't asked where the name may have no file, or is
/// known to have none.
pub(crate) fn find<F: Folder>(
    alloc: Global,
    folder: &mut F,
    root: &str,
    name: &[u16],
    absent: &ClassNames,
) -> Result<Found, Refusal>
    requires { AreAbsent (F.files folder.old) root.now absent.now }
    ensures kept { F.files folder.new ≡ F.files folder.old }
    ensures found { IfOk result (IsFound (F.files folder.old) root.now name.now) }
    ensures outside { IfErr result IsOutside }
    ensures fault { CountsFaults (F.faults folder.old) (F.faults folder.new) (IsErrOf result refusals.FolderFault) }
{
    if absent.has(name) {
        return Ok(Found::Absent);
    }
    let Some(path) = path_of(alloc, root, name)? else {
        return Ok(Found::Absent);
    };
    match folder.read(alloc, path.as_str(), FILE_LIMIT) {
        Ok(found) => Ok(found),
        Err(FolderError::Failed) => Err(Refusal::FolderFault),
        Err(FolderError::OutOfMemory) => Err(Refusal::OutOfMemory),
    }
}
