// What is asked of the methods that objects have.
use crate::program_names::{kind_named, method_named, words_of_method};
use crate::trouble::Trouble;
use cb_hierarchy::Selected;
use cb_link::Program;
use std::alloc::Global;

/// Prints the method that is selected on objects of a kind, where another one was resolved.
pub(crate) fn print_selected(
    alloc: Global,
    report: &mut String,
    program: &Program,
    words: &str,
) -> Result<(), Trouble> {
    let Some((kind, method)) = words.split_once(' ') else {
        return Err(Trouble::NotUnderstood);
    };
    let kind = kind_named(alloc, program, kind)?;
    let method = method_named(alloc, program, method)?;
    if kind >= program.kind_count() || method >= program.method_count() {
        return Err(Trouble::UnknownInProgram);
    }
    let selected = words_of_selected(alloc, program, program.select(kind, method))?;
    writeln!(report, "select {words} gives {selected}")?;
    Ok(())
}

/// The words for what is selected.
pub(crate) fn words_of_selected(
    alloc: Global,
    program: &Program,
    selected: Selected,
) -> Result<String, Trouble> {
    match selected {
        Selected::Method(method) => words_of_method(alloc, program, method),
        Selected::Abstract => Ok(String::from_str(alloc, "abstract")?),
        Selected::Several => Ok(String::from_str(alloc, "several")?),
    }
}
