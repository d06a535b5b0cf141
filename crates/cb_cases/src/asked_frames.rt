// What is asked of the types of a program.
use crate::program_names::{method_named, name_of_kind, words_of_method};
use crate::trouble::Trouble;
use cb_link::Program;
use cb_verify::{TypeFrame, Typing, VerificationType, VerifyFault, verify};
use std::alloc::Global;

/// Prints whether a program is typed, or the class, the method and the place that fail.
pub(crate) fn print_typed(
    alloc: Global,
    report: &mut String,
    program: &Program,
) -> Result<(), Trouble> {
    if typing_of(alloc, report, program)?.is_some() {
        report.push_str("typed\n")?;
    }
    Ok(())
}

/// Prints the frames of a method by place, or what fails of the program.
pub(crate) fn print_frames(
    alloc: Global,
    report: &mut String,
    program: &Program,
    words: &str,
) -> Result<(), Trouble> {
    let method = method_named(alloc, program, words)?;
    if let Some(typing) = typing_of(alloc, report, program)? {
        writeln!(report, "frames {words}")?;
        print_frames_of(alloc, report, program, &typing, method)?;
    }
    Ok(())
}

/// The frames of a program. Where it isn't typed, prints what fails.
fn typing_of(
    alloc: Global,
    report: &mut String,
    program: &Program,
) -> Result<Option<Typing>, Trouble> {
    match verify(alloc, program) {
        Ok(typing) => Ok(Some(typing)),
        Err(VerifyFault::Unverified { method, pc, .. }) => {
            let words = words_of_method(alloc, program, method)?;
            writeln!(report, "fails {words} at {pc}")?;
            Ok(None)
        }
        Err(VerifyFault::OutOfMemory) => Err(Trouble::OutOfMemory),
    }
}

/// Prints the frames of a method.
fn print_frames_of(
    alloc: Global,
    report: &mut String,
    program: &Program,
    typing: &Typing,
    method: u32,
) -> Result<(), Trouble> {
    if method >= program.method_count() {
        return Err(Trouble::UnknownInProgram);
    }
    if let Some(body) = &program.method(method).body {
        for placed in body.code.as_slice() {
            match typing.frame(method, placed.0) {
                Some(frame) => print_frame(alloc, report, program, placed.0, frame)?,
                None => writeln!(report, "{} none", placed.0)?,
            }
        }
    }
    Ok(())
}

/// Prints a frame behind the place of its instruction.
fn print_frame(
    alloc: Global,
    report: &mut String,
    program: &Program,
    place: u32,
    frame: &TypeFrame,
) -> Result<(), Trouble> {
    write!(report, "{place} locals ")?;
    print_locals(alloc, report, program, frame)?;
    report.push_str(" stack ")?;
    print_stack(alloc, report, program, frame)?;
    if frame.is_unfinished() {
        report.push_str(" unfinished")?;
    }
    report.push('\n')?;
    Ok(())
}

/// Prints the types of the local variables.
fn print_locals(
    alloc: Global,
    report: &mut String,
    program: &Program,
    frame: &TypeFrame,
) -> Result<(), Trouble> {
    if frame.local_count() == 0 {
        report.push('-')?;
    }
    for number in 0..frame.local_count() {
        if number > 0 {
            report.push(',')?;
        }
        print_type(alloc, report, program, frame.local(number))?;
    }
    Ok(())
}

/// Prints the types of the values on the operand stack, the topmost last.
fn print_stack(
    alloc: Global,
    report: &mut String,
    program: &Program,
    frame: &TypeFrame,
) -> Result<(), Trouble> {
    let depth = frame.depth();
    if depth == 0 {
        report.push('-')?;
    }
    for below in 0..depth {
        if below > 0 {
            report.push(',')?;
        }
        print_type(alloc, report, program, frame.top(depth - 1 - below))?;
    }
    Ok(())
}

/// Prints a type.
fn print_type(
    alloc: Global,
    report: &mut String,
    program: &Program,
    printed: VerificationType,
) -> Result<(), Trouble> {
    let word = match printed {
        VerificationType::Top => "top",
        VerificationType::Int => "int",
        VerificationType::Long => "long",
        VerificationType::Null => "null",
        VerificationType::This => "this",
        VerificationType::Object(kind) => {
            report.push_str(name_of_kind(alloc, program, kind)?.as_str())?;
            return Ok(());
        }
        VerificationType::New(place) => {
            write!(report, "new {place}")?;
            return Ok(());
        }
    };
    report.push_str(word)?;
    Ok(())
}
