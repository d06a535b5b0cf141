// The classes that are loaded one after the other.
ghost use Rattle.std.specs.Prelude.{◌≡◌, ◌↔◌, ◌∷◌, ◌++◌, [], ◌||◌, ℕ, ◌+◌, ◌-◌, ◌<◌, ◌^◌, List, Option as Maybe, length, slice_get, IfErr, IfOk, IfSome, IsErrOf, IsTrue, None, OnOk, false};
ghost use Rattle.std.specs.List.{list_any};
ghost use Rattle.cb_io.specs.Faults.{CountsFaults};
ghost use Rattle.cb_io.specs.Folder.{Files};
ghost use Rattle.cb_classfile.specs.declared.class.ClassFile.{ClassFile as AnyClass};
ghost use Rattle.cb_classfile.specs.Library.{AreLibrary};
ghost use Rattle.cb_link.specs.Numbers.{same_name};
ghost use Rattle.cb_link.specs.declared.refusal.Refusal.TheVariants as refusals;
ghost use Rattle.cb_load.specs.Closure.{Turn};
ghost use Rattle.cb_load.specs.Files.{MayStandAt, path_of};
ghost use Rattle.cb_load.specs.Inner.{entered_all};
ghost use Rattle.cb_load.specs.Loading.{HasRoom, Loads, Stops, is_loaded};
ghost use Rattle.cb_load.specs.Names.{names_of};
ghost use Rattle.cb_load.specs.InnerTurns.{AreAbsent, IsNext, Stands, StopsAt};

use crate::class_names::ClassNames;
use crate::class_of::class_of;
use crate::entries::Entries;
use crate::file::{FILE_LIMIT, find};
use crate::names::enter_names_of;
use cb_classfile::{ClassFile, Classes};
use cb_io::{Folder, Found};
use cb_link::{Quantity, Refusal, units_of};
use std::alloc::{AllocError, Global};

/// The most classes.
pub(crate) const CLASS_LIMIT: usize = 1024;

/// The classes so far, their names, the entries that they add, and how many of these were taken up.
#[derive(Drop)]
pub(crate) struct Loading {
    pub(crate) classes: Classes,
    pub(crate) names: ClassNames,
    pub(crate) entries: Entries,
    pub(crate) taken: usize,
}

impl Loading {
    /// The library's classes, and the entry of the main class.
    pub(crate) fn begin(alloc: Global, library: Classes, main: &[u16]) -> Result<Self, AllocError>
        requires { AreLibrary library }
        ensures stands { (files : Maybe Files) (root : List ℕ) → IfOk result (λ loading. Stands files root main.now library loading.taken loading.entries loading.names loading.classes) }
        ensures classes { IfOk result (λ loading. loading.classes ≡ library) }
    {
        let names = ClassNames::of(alloc, library.as_slice())?;
        let mut entries = Entries::new(alloc);
        entries.enter(main, true)?;
        Ok(Loading {
            classes: library,
            names,
            entries,
            taken: 0,
        })
    }

    /// The next class to be loaded, and the place of its entry. The names that have no file are noted, and not looked for
    /// again.
    pub(crate) fn next<F: Folder>(
        &self,
        alloc: Global,
        folder: &mut F,
        root: &str,
        absent: &mut ClassNames,
    ) -> Result<Option<(usize, ClassFile)>, Refusal>
        requires { AreAbsent (F.files folder.old) root.now absent.old }
        ensures kept { F.files folder.new ≡ F.files folder.old }
        ensures next { (main : List ℕ) (library : List AnyClass)
            → Stands (F.files folder.old) root.now main library self.now.taken self.now.entries self.now.names self.now.classes
            → IfOk result (IsNext (F.files folder.old) root.now main library self.now.entries self.now.names self.now.classes) }
        ensures refused { (main : List ℕ) (library : List AnyClass)
            → Stands (F.files folder.old) root.now main library self.now.taken self.now.entries self.now.names self.now.classes
            → IfErr result (Stops (F.files folder.old) root.now main) }
        ensures absent { OnOk result (AreAbsent (F.files folder.old) root.now absent.new) }
        ensures place { IfOk result (λ next. IfSome next (λ found. (found.0 < length self.now.entries) × (found.0 < 2 ^ 64 - 1))) }
        ensures fault { CountsFaults (F.faults folder.old) (F.faults folder.new) (IsErrOf result refusals.FolderFault) }
    {
        let has_room = self.classes.len() < CLASS_LIMIT;
        for place in self.taken..self.entries.len() {
            let name = self.entries.name(place);
            if self.names.has(name) {
                continue;
            }
            let needed = self.entries.is_needed(place);
            if let Some(class) = class_for(alloc, folder, root, name, needed, has_room, absent)? {
                return Ok(Some((place, class)));
            }
            absent.insert(name)?;
        }
        Ok(None)
    }

    /// Adds a class, whose entry stands at this place.
    pub(crate) fn load(&mut self, place: usize, class: ClassFile) -> Result<(), AllocError>
        requires there { place < length self.old.entries }
        requires fits { place < 2 ^ 64 - 1 }
        ensures names { OnOk result (IfSome (slice_get self.old.entries place)
            (λ entry. (other : List ℕ) → list_any (same_name other) self.new.names
            ≡ (same_name other entry.name || list_any (same_name other) self.old.names))) }
        ensures entries { OnOk result (self.new.entries ≡ entered_all self.old.entries (names_of class)) }
        ensures classes { OnOk result (self.new.classes ≡ self.old.classes ++ class ∷ []) }
        ensures taken { OnOk result (self.new.taken ≡ place + 1) }
    {
        self.names.insert(self.entries.name(place))?;
        enter_names_of(&class, &mut self.entries)?;
        self.classes.push(class)?;
        self.taken = place + 1;
        Ok(())
    }
}

/// The class of a name that isn't there yet, if it has a file.
fn class_for<F: Folder>(
    alloc: Global,
    folder: &mut F,
    root: &str,
    name: &[u16],
    needed: bool,
    has_room: bool,
    absent: &ClassNames,
) -> Result<Option<ClassFile>, Refusal>
    requires { AreAbsent (F.files folder.old) root.now absent.now }
    ensures kept { F.files folder.new ≡ F.files folder.old }
    ensures absent { IfOk result (λ class. class ≡ None → MayStandAt (F.files folder.old) (path_of root.now name.now) None) }
    ensures loads { (before : List (Turn AnyClass)) → is_loaded before name.now ≡ false → (IsTrue has_room ↔ HasRoom before)
        → IfOk result (Loads (F.files folder.old) root.now before (record { name = name.now; needed = needed })) }
    ensures refused { (before : List (Turn AnyClass)) → is_loaded before name.now ≡ false → (IsTrue has_room ↔ HasRoom before)
        → IfErr result (StopsAt (F.files folder.old) root.now before (record { name = name.now; needed = needed })) }
    ensures fault { CountsFaults (F.faults folder.old) (F.faults folder.new) (IsErrOf result refusals.FolderFault) }
{
    match find(alloc, folder, root, name, absent)? {
        Found::Absent if needed => Err(Refusal::MissingClass {
            name: units_of(alloc, name)?,
        }),
        Found::Absent => Ok(None),
        Found::TooLong => Err(too_large(Quantity::ClassFileBytes, FILE_LIMIT)),
        Found::Bytes(_) if !has_room => Err(too_large(Quantity::Classes, CLASS_LIMIT)),
        Found::Bytes(bytes) => Ok(Some(class_of(alloc, name, &bytes)?)),
    }
}

/// One more than a limit.
fn too_large(what: Quantity, limit: usize) -> Refusal
    requires { limit < 2 ^ 32 }
    ensures { result ≡ refusals.TooLarge what (limit + 1) limit }
{
    Refusal::TooLarge {
        what,
        count: limit as u64 + 1,
        limit: limit as u64,
    }
}
