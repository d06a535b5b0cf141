// Linking.
ghost use Rattle.std.specs.Prelude.{◌≡◌, ◌++◌, ◌≤◌, List, length, IfErr, IfOk, IsErrOf};
ghost use Rattle.std.specs.List.{AllByRecursion};
ghost use Rattle.cb_io.specs.Faults.{CountsFaults};
ghost use Rattle.cb_classfile.specs.declared.class.ClassFile.{ClassFile};
ghost use Rattle.cb_classfile.specs.Library.{AreLibrary};
ghost use Rattle.cb_link.specs.Having.{HasOwnName};
ghost use Rattle.cb_link.specs.Judging.{class_limit};
ghost use Rattle.cb_link.specs.declared.refusal.Refusal.TheVariants as refusals;
ghost use Rattle.cb_load.specs.Linking.{Hinders, IsLinked};
ghost use Rattle.cb_load.specs.Loading.{AreLoaded, Stops};

use crate::class_names::ClassNames;
use crate::loading::Loading;
use cb_classfile::Classes;
use cb_io::Folder;
use cb_link::{Program, Refusal, program_of};
use cb_text::Units;
use std::alloc::Global;

/// The program of a main class: the library's classes, and those that it needs of a folder, each read from
/// `ROOT/NAME.class` (JVMS §5.3). Names are internal names (JVMS §4.2.1).
///
/// Names are taken up one after the other, the main class's first: the class of a name that has a file is loaded, and adds
/// the names that it mentions at the end. A name is refused, and ends the call, in this order of looking: `FolderFault`
/// where the folder's count of faults rose; `MissingClass` where it is needed and has no file; `TooLarge` where its file is
/// longer than a class file may be, or where there are too many classes; `BadVersion`; `Malformed` where its file is no
/// class file or that of a class of another name; `Unsupported`. A name under `java/` that isn't the library's has no file,
/// nor has one that isn't text or holds U+0000. Each other name is asked for once.
///
/// The classes that were loaded are refused in this order: `BadHierarchy` for the first class that can't be in a hierarchy;
/// `MissingMember` for the first instruction, by class, method and place, that names a member that can't be had (JVMS §5.4.3);
/// `NoMain` where the main class and its superclasses have no static method `main`; `TooLarge` where there are too many methods,
/// or too many sites. `OutOfMemory` where no memory was to be had. Takes time in the bytes that are read, times a logarithm,
/// and in the instructions that name members, times what is above their classes.
pub fn link<F: Folder>(
    alloc: Global,
    library: Classes,
    folder: &mut F,
    root: &str,
    main: Units,
) -> Result<Program, Refusal>
    requires library { AreLibrary library }
    ensures kept { F.files folder.new ≡ F.files folder.old }
    ensures linked { IfOk result (IsLinked (F.files folder.old) root.now library main) }
    ensures refused { IfErr result (Hinders (F.files folder.old) root.now library main) }
    ensures fault { CountsFaults (F.faults folder.old) (F.faults folder.new) (IsErrOf result refusals.FolderFault) }
{
    let classes = load_classes(alloc, library, folder, root, &main)?;
    program_of(alloc, classes, main)
}

/// The library's classes, and those that a main class needs of a folder.
fn load_classes<F: Folder>(
    alloc: Global,
    library: Classes,
    folder: &mut F,
    root: &str,
    main: &Units,
) -> Result<Classes, Refusal>
    requires library { AreLibrary library }
    ensures kept { F.files folder.new ≡ F.files folder.old }
    ensures loaded { IfOk result (λ all. (classes : List ClassFile) × AreLoaded (F.files folder.old) root.now main.now classes
        × (all ≡ library ++ classes)) }
    ensures few { IfOk result (λ all. length all ≤ class_limit) }
    ensures named { IfOk result (AllByRecursion HasOwnName) }
    ensures refused { IfErr result (Stops (F.files folder.old) root.now main.now) }
    ensures fault { CountsFaults (F.faults folder.old) (F.faults folder.new) (IsErrOf result refusals.FolderFault) }
{
    let mut loading = Loading::begin(alloc, library, main.as_slice())?;
    let mut absent = ClassNames::none(alloc);
    while let Some((place, class)) = loading.next(alloc, folder, root, &mut absent)? {
        loading.load(place, class)?;
    }
    Ok(loading.classes)
}
