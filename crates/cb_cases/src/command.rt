// The commands of cases.
ghost use Rattle.std.specs.Prelude.{map, string_bytes};
ghost use Rattle.cb_runner.specs.Words.{AreFew};

use crate::linked::LinkedProgram;
use crate::number::{narrow, number_of};
use crate::printing::push_bytes;
use crate::program_names::units_of;
use crate::setup::Setup;
use crate::trouble::Trouble;
use cb_asm::list;
use cb_classfile::{ClassFile, unsupported};
use cb_collector::Tally;
use cb_core::core_classes;
use cb_io::{MemFolder, MemSink, MemSource};
use cb_link::Program;
use cb_load::link;
use cb_runner::{Cause, are_few, run_command};
use cb_writer::well_formed;
use std::alloc::{AllocError, Global};

/// Does a command, if the keyword is that of one, and prints what came of it.
pub(crate) fn do_command(
    alloc: Global,
    setup: &mut Setup,
    report: &mut String,
    keyword: &str,
    rest: &str,
) -> Result<(), Trouble> {
    match keyword {
        "command" => {
            add_words(setup, rest)?;
            run(alloc, setup, report)
        }
        "library" => list_class(alloc, report, number_of(rest)?),
        _ => Err(Trouble::NotUnderstood),
    }
}

/// Adds the words of a line, which one blank parts.
pub(crate) fn add_words(setup: &mut Setup, line: &str) -> Result<(), Trouble> {
    if line.is_empty() {
        return Ok(());
    }
    for word in line.split(' ') {
        setup.add_word(word)?;
    }
    Ok(())
}

/// How a command ended, what its collections came to, and what is left of the objects.
#[derive(Drop)]
pub(crate) struct Ran {
    pub status: u8,
    pub cause: Cause,
    pub tally: Tally,
    pub input: MemSource,
    pub out: MemSink,
    pub err: MemSink,
}

/// Does what the words say, over objects in memory.
pub(crate) fn run_words(alloc: Global, setup: &mut Setup) -> Result<Ran, Trouble> {
    let words = setup.take_words();
    if !are_few(words.as_slice()) {
        return Err(Trouble::TooManyWords);
    }
    let folder = setup.take_folder()?;
    let input = setup.take_input()?;
    let out = setup.take_out();
    let err = setup.take_err();
    Ok(run_over(alloc, words.as_slice(), folder, input, out, err))
}

/// Does what few words say.
fn run_over(
    alloc: Global,
    words: &[String],
    mut folder: MemFolder,
    mut input: MemSource,
    mut out: MemSink,
    mut err: MemSink,
) -> Ran
    requires { AreFew (map string_bytes words.now) }
{
    let ended = run_command(alloc, words, &mut folder, &mut input, &mut out, &mut err);
    Ran {
        status: ended.status,
        cause: ended.cause,
        tally: ended.tally,
        input,
        out,
        err,
    }
}

/// Does what the words say, and prints what came of it.
fn run(alloc: Global, setup: &mut Setup, report: &mut String) -> Result<(), Trouble> {
    let ran = run_words(alloc, setup)?;
    print_ran(report, &ran, setup.tells_tally())?;
    Ok(())
}

/// Prints what came of a command, and its tally where that is asked for.
fn print_ran(report: &mut String, ran: &Ran, tells_tally: bool) -> Result<(), AllocError> {
    writeln!(report, "status {} {:?}", ran.status, ran.cause)?;
    if tells_tally {
        print_tally(report, ran.tally)?;
    }
    push_bytes(report, "out", ran.out.bytes())?;
    push_bytes(report, "err", ran.err.bytes())?;
    writeln!(report, "left {}", ran.input.remaining().len())
}

/// Prints how many collections there were, and how many words stayed and went.
fn print_tally(report: &mut String, tally: Tally) -> Result<(), AllocError> {
    writeln!(
        report,
        "tally {} {} {} {}",
        tally.partials, tally.fulls, tally.visited, tally.freed
    )
}

/// Links the main class of a folder.
pub(crate) fn link_main(
    alloc: Global,
    setup: &mut Setup,
    report: &mut String,
    line: &str,
) -> Result<Option<Box<LinkedProgram>>, Trouble> {
    let Some((root, main)) = line.split_once(' ') else {
        return Err(Trouble::NotUnderstood);
    };
    let mut folder = setup.take_folder()?;
    let library = core_classes(alloc)?;
    let known = narrow(library.len())?;
    match link(alloc, library, &mut folder, root, units_of(alloc, main)?) {
        Ok(program) => Ok(Some(boxed(alloc, program, known)?)),
        Err(refusal) => {
            writeln!(report, "refused {refusal:?}")?;
            Ok(None)
        }
    }
}

/// A linked program in a box, so that what carries it costs the check of proofs nothing.
fn boxed(alloc: Global, program: Program, known: u32) -> Result<Box<LinkedProgram>, AllocError> {
    Ok(Box::new(alloc, LinkedProgram { program, known })?)
}

/// Prints the listing of a class of the library.
fn list_class(alloc: Global, report: &mut String, number: usize) -> Result<(), Trouble> {
    let classes = core_classes(alloc)?;
    if number >= classes.len() {
        return Err(Trouble::UnknownClass);
    }
    print_listing(alloc, report, classes.get(number))
}

/// Prints the listing of a class, or why it has none.
fn print_listing(alloc: Global, report: &mut String, class: &ClassFile) -> Result<(), Trouble> {
    if !well_formed(class) {
        report.push_str("malformed\n")?;
        return Ok(());
    }
    if let Some(item) = unsupported(class) {
        writeln!(report, "unsupported {item}")?;
        return Ok(());
    }
    push_bytes(report, "out", list(alloc, class)?.as_bytes())?;
    Ok(())
}
