// Linking the class that is run.
ghost use Rattle.std.specs.Prelude.{◌≡◌, IfErr, IfOk, IsErrOf};
ghost use Rattle.cb_io.specs.Faults.{CountsFaults};
ghost use Rattle.cb_runner.specs.Inner.{IsConverted, IsUnlinked, StopsAtOnce, StopsUntyped, run_of};
ghost use Rattle.cb_runner.specs.Run.{IsRefusedRun, IsRunnable};
ghost use Rattle.cb_safety.specs.Linked.{IsLinked};
ghost use Rattle.cb_verify.specs.Typed.{IsTyped};
ghost use Rattle.cb_runner.specs.Words.{internal_name};
ghost use Rattle.cb_runner.specs.declared.stop.Stop.TheVariants as stops;

use crate::Refusal;
use crate::class_name::internal_name;
use crate::run_words::RunWords;
use crate::stop::Stop;
use crate::verifying::verify_program;
use cb_core::core_classes;
use cb_io::{Folder, text_of};
use cb_link::{Program, Refusal as LinkRefusal};
use cb_load::link;
use cb_safety::linking_links;
use std::alloc::Global;

/// Links the class that words name, with the library's classes and those of a folder, and verifies the program, which it gives.
pub(crate) fn link_class<F: Folder>(
    alloc: Global,
    asked: &RunWords<'_>,
    folder: &mut F,
) -> Result<Program, Stop>
    ensures kept { F.files folder.new ≡ F.files folder.old }
    ensures runnable { IfOk result (λ program. IsRunnable (F.files folder.old) asked.now.folder.now (internal_name asked.now.class.now) program) }
    ensures linked { IfOk result IsLinked }
    ensures stopped { IfErr result (StopsAtOnce (IsRefusedRun (F.files folder.old) asked.now.folder.now (run_of asked.now))) }
    ensures fault { CountsFaults (F.faults folder.old) (F.faults folder.new) (IsErrOf result stops.FolderFault) }
{
    linking_links();
    let Ok(library) = core_classes(alloc) else {
        return Err(Stop::OutOfMemory);
    };
    let Ok(main) = internal_name(alloc, asked.class) else {
        return Err(Stop::OutOfMemory);
    };
    match link(alloc, library, folder, asked.folder, main) {
        Ok(program) => verified(alloc, program),
        Err(refusal) => Err(unlinked(alloc, refusal)),
    }
}

/// The program, if it is typed.
fn verified(alloc: Global, program: Program) -> Result<Program, Stop>
    ensures same { IfOk result (λ typed. typed ≡ program) }
    ensures typed { IfOk result IsTyped }
    ensures stopped { IfErr result (StopsUntyped program) }
{
    match verify_program(alloc, &program) {
        Ok(()) => Ok(program),
        Err(stop) => {
            drop(program);
            Err(stop)
        }
    }
}

/// Stops for a refusal of linking.
fn unlinked(alloc: Global, refusal: LinkRefusal) -> Stop
    ensures { IsUnlinked refusal result }
{
    match converted(alloc, refusal) {
        Ok(refusal) => Stop::refused(alloc, refusal),
        Err(stop) => stop,
    }
}

/// The same refusal, in which classes are named as they are printed.
fn converted(alloc: Global, refusal: LinkRefusal) -> Result<Refusal, Stop>
    ensures { IsConverted refusal result }
{
    match refusal {
        LinkRefusal::MissingClass { name } => {
            let name = text_of(alloc, name.as_slice())?;
            Ok(Refusal::MissingClass { name })
        }
        LinkRefusal::TooLarge { what, count, limit } => Ok(Refusal::TooLarge {
            what,
            count,
            limit,
        }),
        LinkRefusal::Malformed { class } => {
            let class = text_of(alloc, class.as_slice())?;
            Ok(Refusal::Malformed { class })
        }
        LinkRefusal::BadVersion { class, major } => {
            let class = text_of(alloc, class.as_slice())?;
            Ok(Refusal::BadVersion { class, major })
        }
        LinkRefusal::Unsupported { class, item } => {
            let class = text_of(alloc, class.as_slice())?;
            Ok(Refusal::Unsupported { class, item })
        }
        LinkRefusal::BadHierarchy { class } => {
            let class = text_of(alloc, class.as_slice())?;
            Ok(Refusal::BadHierarchy { class })
        }
        LinkRefusal::MissingMember { class, member } => {
            let class = text_of(alloc, class.as_slice())?;
            let member = text_of(alloc, member.as_slice())?;
            Ok(Refusal::MissingMember { class, member })
        }
        LinkRefusal::NoMain { class } => {
            let class = text_of(alloc, class.as_slice())?;
            Ok(Refusal::NoMain { class })
        }
        LinkRefusal::FolderFault => Err(Stop::FolderFault),
        LinkRefusal::OutOfMemory => Err(Stop::OutOfMemory),
    }
}
