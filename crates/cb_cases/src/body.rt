// Methods that are tried in a class.
use crate::command::{Ran, add_words, run_words};
use crate::content::assembled;
use crate::setup::Setup;
use crate::trouble::Trouble;
use cb_runner::Cause;
use std::alloc::{AllocError, Global};

/// A method, by the words of a line.
#[derive(Drop)]
struct Body<'a> {
    flags: &'a str,
    name: &'a str,
    descriptor: &'a str,
    limits: &'a str,
    code: &'a str,
}

impl<'a> Body<'a> {
    /// The method of a line.
    fn read(line: &'a str) -> Result<Self, Trouble> {
        let (head, code) = parted(line, " : ")?;
        let (flags, head) = parted(head, " ")?;
        let (name, head) = parted(head, " ")?;
        let (descriptor, limits) = parted(head, " ")?;
        Ok(Body {
            flags,
            name,
            descriptor,
            limits,
            code,
        })
    }

    /// Adds the method to the assembly text of a class.
    fn add_to(&self, text: &mut String) -> Result<(), Trouble> {
        writeln!(
            text,
            "method {} {} {}",
            self.flags, self.name, self.descriptor
        )?;
        writeln!(text, "limits {}", self.limits)?;
        for line in self.code.split(" ; ") {
            writeln!(text, "{line}")?;
        }
        text.push_str("end\n")?;
        Ok(())
    }
}

/// What stands before a mark and behind it.
fn parted<'a>(text: &'a str, mark: &str) -> Result<(&'a str, &'a str), Trouble> {
    text.split_once(mark).ok_or(Trouble::NotUnderstood)
}

/// Runs the class A that has the lines of a text and the method of a line, and prints what came of it before the line.
pub(crate) fn try_body(
    alloc: Global,
    setup: &mut Setup,
    report: &mut String,
    around: &[u8],
    line: &str,
) -> Result<(), Trouble> {
    let body = Body::read(line)?;
    setup.put("F/A.class", class_with(alloc, around, &body)?)?;
    add_words(setup, "run F A")?;
    run_body(alloc, setup, report, &body, line)
}

/// The class file of a text and a method behind it.
fn class_with(alloc: Global, around: &[u8], body: &Body) -> Result<Vec<u8>, Trouble> {
    let mut text = String::from_utf8(Vec::from_slice(alloc, around)?).map_err(
        |_| Trouble::NotUnderstood,
    )?;
    body.add_to(&mut text)?;
    assembled(alloc, text.as_bytes())
}

/// Runs the class A, and prints what came of it before the line.
fn run_body(
    alloc: Global,
    setup: &mut Setup,
    report: &mut String,
    body: &Body,
    line: &str,
) -> Result<(), Trouble> {
    let ran = run_words(alloc, setup)?;
    print_verdict(alloc, report, body, &ran, line)?;
    Ok(())
}

/// Prints that the class is typed, at which place the method fails, or what else the machine said, and the line.
fn print_verdict(
    alloc: Global,
    report: &mut String,
    body: &Body,
    ran: &Ran,
    line: &str,
) -> Result<(), AllocError> {
    let told = str::from_utf8(ran.err.bytes())
        .unwrap_or("no text")
        .trim_end();
    if was_run(ran.cause) {
        writeln!(report, "typed: {line}")
    } else if let Some(place) = failing_place(alloc, body, told)? {
        writeln!(report, "fails at {place}: {line}")
    } else {
        writeln!(report, "{:?} {told}: {line}", ran.cause)
    }
}

/// The place at which the method fails, where the machine said so.
fn failing_place<'a>(
    alloc: Global,
    body: &Body,
    told: &'a str,
) -> Result<Option<&'a str>, AllocError> {
    let failing = format!(in alloc; "cbvm: E7 not verified A {}{} ", body.name, body.descriptor)?;
    Ok(told.strip_prefix(failing.as_str()))
}

/// Whether a program was run, which is so only where it is typed.
fn was_run(cause: Cause) -> bool {
    matches!(
        cause,
        Cause::Returned
            | Cause::Exited(_)
            | Cause::Uncaught(_)
            | Cause::BudgetSpent
            | Cause::HeapFull
    )
}
