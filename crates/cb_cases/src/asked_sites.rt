// What is asked of the sites and the texts of a program.
use crate::program_names::{name_of_kind, words_of_method};
use crate::trouble::Trouble;
use cb_io::text_of;
use cb_link::Program;
use std::alloc::Global;

/// Prints how many sites a program has, and those of the methods of the classes behind the library's: number, method, place,
/// dimension and kind.
pub(crate) fn print_sites(
    alloc: Global,
    report: &mut String,
    program: &Program,
    known: u32,
) -> Result<(), Trouble> {
    writeln!(report, "sites {}", program.site_count())?;
    for method in 0..program.method_count() {
        if program.class_of(method) >= known {
            print_sites_of(alloc, report, program, method)?;
        }
    }
    Ok(())
}

/// Prints the sites of a method.
fn print_sites_of(
    alloc: Global,
    report: &mut String,
    program: &Program,
    method: u32,
) -> Result<(), Trouble> {
    if method >= program.method_count() {
        return Err(Trouble::UnknownInProgram);
    }
    if let Some(body) = &program.method(method).body {
        for placed in body.code.as_slice() {
            print_sites_at(alloc, report, program, method, placed.0)?;
        }
    }
    Ok(())
}

/// Prints the sites of an instruction.
fn print_sites_at(
    alloc: Global,
    report: &mut String,
    program: &Program,
    method: u32,
    place: u32,
) -> Result<(), Trouble> {
    let words = words_of_method(alloc, program, method)?;
    for dimension in 0..program.made_count(method, place) {
        let site = program.site(method, place, dimension);
        let kind = kind_of_site(alloc, program, site)?;
        writeln!(report, "site {site} {words} {place} {dimension} {kind}")?;
    }
    Ok(())
}

/// The kind of the objects of a site.
fn kind_of_site(alloc: Global, program: &Program, site: u32) -> Result<String, Trouble> {
    if site >= program.site_count() {
        return Err(Trouble::UnknownInProgram);
    }
    name_of_kind(alloc, program, program.site_kind(site))
}

/// Prints the texts of strings, and which one a division by zero has.
pub(crate) fn print_texts(
    alloc: Global,
    report: &mut String,
    program: &Program,
) -> Result<(), Trouble> {
    for number in 0..program.constant_count() {
        let text = text_of(alloc, program.constant(number))?;
        writeln!(report, "text {number} {text}")?;
    }
    writeln!(report, "division {}", program.divide_text())?;
    Ok(())
}
