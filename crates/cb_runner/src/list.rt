// The command `list`.
ghost use Rattle.std.specs.Prelude.{◌≡◌, ℕ, List, None, Option};
ghost use Rattle.std.specs.Io.KnownBytes.{Appends};
ghost use Rattle.cb_io.specs.Faults.{CountsFaults};
ghost use Rattle.cb_io.specs.Folder.{FindsAt};
ghost use Rattle.cb_runner.specs.List.{ListsBytes, ListsFile};
ghost use Rattle.cb_runner.specs.Inner.{IsUnlisted, ListsTo, Makes, TellsWhole};
ghost use Rattle.cb_runner.specs.Run.{file_limit};
ghost use Rattle.cb_runner.specs.declared.stop.Stop.TheVariants as stops;

use crate::Refusal;
use crate::file::{MAX_FILE_LENGTH, find_file};
use crate::printing::print_made;
use crate::stop::Stop;
use cb_asm::list;
use cb_classfile::{ClassFault, read_class};
use cb_io::{Folder, Found, Sink};
use cb_link::Quantity;
use std::alloc::Global;

/// Prints the listing of the class file at a path.
pub(crate) fn list_file<F: Folder, O: Sink>(
    alloc: Global,
    path: &str,
    folder: &mut F,
    out: &mut O,
) -> Stop
    ensures ends { (printed : List ℕ) × Appends (O.taken out.old) (O.taken out.new) printed
        × ListsTo path.now (F.files folder.old) result printed }
    ensures kept { F.files folder.new ≡ F.files folder.old }
    ensures tells { TellsWhole None result }
    ensures folder_fault { CountsFaults (F.faults folder.old) (F.faults folder.new) (result ≡ stops.FolderFault) }
    ensures output_fault { CountsFaults (O.faults out.old) (O.faults out.new) (result ≡ stops.OutputFault) }
{
    match find_file(alloc, path, folder) {
        Ok(found) => print_made(listing_of(alloc, path, &found), out),
        Err(stop) => stop,
    }
}

/// The listing of what was found at a path.
fn listing_of(alloc: Global, path: &str, found: &Found) -> Result<Vec<u8>, Stop>
    ensures { (file : Option (List ℕ)) → FindsAt file file_limit found.now → Makes (ListsFile path.now file) 0 result }
{
    match found {
        Found::Bytes(bytes) => listing_of_bytes(alloc, path, bytes.as_slice()),
        Found::Absent => Err(Stop::missing_class(alloc, path)),
        Found::TooLong => Err(Stop::refused(
            alloc,
            Refusal::TooLarge {
                what: Quantity::ClassFileBytes,
                count: MAX_FILE_LENGTH as u64 + 1,
                limit: MAX_FILE_LENGTH as u64,
            },
        )),
    }
}

/// The listing of a class file.
fn listing_of_bytes(alloc: Global, path: &str, bytes: &[u8]) -> Result<Vec<u8>, Stop>
    ensures { Makes (ListsBytes path.now bytes.now) 0 result }
{
    match read_class(alloc, bytes) {
        Ok(class) => match list(alloc, &class) {
            Ok(text) => Ok(text.into_bytes()),
            Err(_) => Err(Stop::OutOfMemory),
        },
        Err(fault) => Err(unlisted(alloc, path, fault)),
    }
}

/// The refusal of a class file that isn't read.
fn unlisted(alloc: Global, path: &str, fault: ClassFault) -> Stop
    ensures { IsUnlisted path.now fault result }
{
    let Ok(class) = String::from_str(alloc, path) else {
        return Stop::OutOfMemory;
    };
    match fault {
        ClassFault::BadVersion { major } => {
            Stop::refused(alloc, Refusal::BadVersion { class, major })
        }
        ClassFault::Malformed => Stop::refused(alloc, Refusal::Malformed { class }),
        ClassFault::Unsupported { item } => {
            Stop::refused(alloc, Refusal::Unsupported { class, item })
        }
        ClassFault::OutOfMemory => Stop::OutOfMemory,
    }
}
