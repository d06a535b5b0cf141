// What is asked of the classes of a program.
use crate::number::narrow;
use crate::program_names::{name_of_class, name_of_kind, words_of_method};
use crate::trouble::Trouble;
use cb_link::Program;
use std::alloc::Global;

/// Prints how many classes a program has, and the names of those behind the library's.
pub(crate) fn print_classes(
    report: &mut String,
    program: &Program,
    known: u32,
) -> Result<(), Trouble> {
    let count = program.class_count();
    writeln!(report, "classes {count}")?;
    for class in known..narrow(count)? {
        writeln!(report, "class {}", name_of_class(program, class)?)?;
    }
    Ok(())
}

/// Prints the main class, and the method with which a program begins.
pub(crate) fn print_main(
    alloc: Global,
    report: &mut String,
    program: &Program,
) -> Result<(), Trouble> {
    let class = program.class_name(program.main_class()).text();
    let method = words_of_method(alloc, program, program.main_method())?;
    writeln!(report, "main {class} begins {method}")?;
    Ok(())
}

/// Prints the classes that are initialised before a class, and its initialiser.
pub(crate) fn print_initial(
    alloc: Global,
    report: &mut String,
    program: &Program,
    class: u32,
) -> Result<(), Trouble> {
    if class as usize >= program.class_count() {
        return Err(Trouble::UnknownInProgram);
    }
    for place in 0..program.parent_count(class) {
        let parent = program.parent(class, place);
        writeln!(report, "before {}", name_of_class(program, parent)?)?;
    }
    match program.initialiser(class) {
        Some(method) => {
            let method = words_of_method(alloc, program, method)?;
            writeln!(report, "initialiser {method}")?;
        }
        None => report.push_str("initialiser none\n")?,
    }
    Ok(())
}

/// Prints the constants of a class that name kinds, by their indices.
pub(crate) fn print_pool(
    alloc: Global,
    report: &mut String,
    program: &Program,
    class: u32,
) -> Result<(), Trouble> {
    if class as usize >= program.class_count() {
        return Err(Trouble::UnknownInProgram);
    }
    for index in 0..program.class(class as usize).pool.len() {
        if let Some(kind) = program.kind_at(class, index) {
            let name = name_of_kind(alloc, program, kind)?;
            writeln!(report, "index {index} {name}")?;
        }
    }
    Ok(())
}
