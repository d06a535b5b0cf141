// What is asked of the kinds of a program.
use crate::program_names::{kind_named, name_of_kind, words_of_basic};
use crate::trouble::Trouble;
use cb_link::Program;
use cb_plain::Shape;
use std::alloc::Global;

/// Prints the kinds behind the library's classes: of which class a kind is, or what the elements are, and what the words hold.
pub(crate) fn print_kinds(
    alloc: Global,
    report: &mut String,
    program: &Program,
    known: u32,
) -> Result<(), Trouble> {
    for kind in known..program.kind_count() {
        print_kind(alloc, report, program, kind)?;
    }
    Ok(())
}

/// Prints a kind.
fn print_kind(
    alloc: Global,
    report: &mut String,
    program: &Program,
    kind: u32,
) -> Result<(), Trouble> {
    let name = name_of_kind(alloc, program, kind)?;
    write!(report, "kind {name}")?;
    if kind >= program.kind_count() {
        return Err(Trouble::UnknownInProgram);
    }
    if let Some(class) = program.class_of_kind(kind) {
        print_class_of_kind(report, program, kind, class)?;
    }
    if let Some(basic) = program.element(kind) {
        let words = words_of_basic(alloc, program, basic)?;
        write!(report, " elements {words}")?;
    }
    print_shape(report, program.shape(kind))
}

/// Prints the class of a kind, and whether the kind is that of its objects, as it should be.
fn print_class_of_kind(
    report: &mut String,
    program: &Program,
    kind: u32,
    class: u32,
) -> Result<(), Trouble> {
    if class as usize >= program.class_count() {
        return Err(Trouble::UnknownInProgram);
    }
    write!(report, " class {}", program.class_name(class).text())?;
    if program.kind_of_class(class) != kind {
        report.push_str(" of another kind")?;
    }
    Ok(())
}

/// Prints what the words of objects hold, and ends the line.
fn print_shape(report: &mut String, shape: &Shape) -> Result<(), Trouble> {
    match shape {
        Shape::Fields(marks) => {
            report.push_str(" fields")?;
            for mark in marks.as_slice() {
                print_mark(report, *mark)?;
            }
        }
        Shape::Elements(mark) => {
            report.push_str(" words")?;
            print_mark(report, *mark)?;
        }
    }
    report.push('\n')?;
    Ok(())
}

/// Prints what a word holds.
fn print_mark(report: &mut String, is_reference: bool) -> Result<(), Trouble> {
    let word = if is_reference { "reference" } else { "number" };
    write!(report, " {word}")?;
    Ok(())
}

/// Prints whether a kind is an instance of others, or assignable to them.
pub(crate) fn print_relations(
    alloc: Global,
    report: &mut String,
    program: &Program,
    relation: &str,
    words: &str,
) -> Result<(), Trouble> {
    let Some((name, others)) = words.split_once(' ') else {
        return Err(Trouble::NotUnderstood);
    };
    let kind = kind_named(alloc, program, name)?;
    for other in others.split(' ') {
        let to = kind_named(alloc, program, other)?;
        let word = if is_related(program, relation, kind, to)? {
            "yes"
        } else {
            "no"
        };
        writeln!(report, "{relation} {name} {other} {word}")?;
    }
    Ok(())
}

/// Whether a relation holds between two kinds.
fn is_related(program: &Program, relation: &str, kind: u32, to: u32) -> Result<bool, Trouble> {
    let count = program.kind_count();
    if kind >= count || to >= count {
        return Err(Trouble::UnknownInProgram);
    }
    Ok(if relation == "instance" {
        program.instance(kind, to)
    } else {
        program.assignable(kind, to)
    })
}
