// What is asked of the code of a method.
use crate::program_names::{
    method_named, name_of_class, name_of_kind, words_of_basic, words_of_method,
};
use crate::trouble::Trouble;
use cb_asm_line::name_of;
use cb_io::text_of;
use cb_link::{Named, Program};
use cb_plain::Value;
use std::alloc::Global;

/// Prints what the parameters and the result of a method are, what its instructions name, and what its handlers take.
pub(crate) fn print_method(
    alloc: Global,
    report: &mut String,
    program: &Program,
    words: &str,
) -> Result<(), Trouble> {
    let method = method_named(alloc, program, words)?;
    writeln!(report, "method {words}")?;
    print_types(alloc, report, program, method)?;
    print_code(alloc, report, program, method)?;
    print_handlers(alloc, report, program, method)
}

/// Prints what the parameters and the result of a method are.
fn print_types(
    alloc: Global,
    report: &mut String,
    program: &Program,
    method: u32,
) -> Result<(), Trouble> {
    if method >= program.method_count() {
        return Err(Trouble::UnknownInProgram);
    }
    for place in 0..program.parameter_count(method) {
        let words = words_of_basic(alloc, program, program.parameter(method, place))?;
        writeln!(report, "parameter {words}")?;
    }
    if let Some(basic) = program.result(method) {
        let words = words_of_basic(alloc, program, basic)?;
        writeln!(report, "result {words}")?;
    }
    Ok(())
}

/// Prints the instructions of a method.
fn print_code(
    alloc: Global,
    report: &mut String,
    program: &Program,
    method: u32,
) -> Result<(), Trouble> {
    if method >= program.method_count() {
        return Err(Trouble::UnknownInProgram);
    }
    if let Some(body) = &program.method(method).body {
        for placed in body.code.as_slice() {
            print_instruction(alloc, report, program, method, placed.0)?;
        }
    }
    Ok(())
}

/// Prints an instruction: its place and its name, what it names, and the place of the next one.
fn print_instruction(
    alloc: Global,
    report: &mut String,
    program: &Program,
    method: u32,
    place: u32,
) -> Result<(), Trouble> {
    let Some(insn) = program.instruction(method, place) else {
        return Err(Trouble::UnknownInProgram);
    };
    let name = name_of(insn.opcode).unwrap_or("unknown");
    let named = words_of_named(alloc, program, program.named(method, place))?;
    write!(report, "{place} {name} {named}")?;
    if let Some(behind) = program.behind(method, place) {
        write!(report, " then {behind}")?;
    }
    report.push('\n')?;
    Ok(())
}

/// Prints which kinds the handlers of a method take.
fn print_handlers(
    alloc: Global,
    report: &mut String,
    program: &Program,
    method: u32,
) -> Result<(), Trouble> {
    if method >= program.method_count() {
        return Err(Trouble::UnknownInProgram);
    }
    if let Some(body) = &program.method(method).body {
        for handler in 0..body.handlers.len() {
            let words = match program.catch_kind(method, handler) {
                Some(kind) => name_of_kind(alloc, program, kind)?,
                None => String::from_str(alloc, "any")?,
            };
            writeln!(report, "catch {words}")?;
        }
    }
    Ok(())
}

/// The words for what something names.
pub(crate) fn words_of_named(
    alloc: Global,
    program: &Program,
    named: Named,
) -> Result<String, Trouble> {
    Ok(match named {
        Named::Nothing => String::from_str(alloc, "nothing")?,
        Named::Kind(kind) => {
            let name = name_of_kind(alloc, program, kind)?;
            format!(in alloc; "kind {name}")?
        }
        Named::Static { class, slot } => {
            format!(in alloc; "static {} {slot}", name_of_class(program, class)?)?
        }
        Named::Field { class, slot } => {
            format!(in alloc; "field {} {slot}", name_of_class(program, class)?)?
        }
        Named::Method(method) => {
            let words = words_of_method(alloc, program, method)?;
            format!(in alloc; "method {words}")?
        }
        Named::Text(number) => words_of_text(alloc, program, number)?,
        Named::Whole(value) => words_of_value(alloc, value)?,
    })
}

/// The words for a text.
fn words_of_text(alloc: Global, program: &Program, number: u32) -> Result<String, Trouble> {
    if number >= program.constant_count() {
        return Err(Trouble::UnknownInProgram);
    }
    let text = text_of(alloc, program.constant(number))?;
    Ok(format!(in alloc; "text {text}")?)
}

/// The words for a value.
fn words_of_value(alloc: Global, value: Value) -> Result<String, Trouble> {
    Ok(match value {
        Value::Int(number) => format!(in alloc; "int {number}")?,
        Value::Long(number) => format!(in alloc; "long {number}")?,
        Value::Ref(number) => format!(in alloc; "reference {number}")?,
    })
}
