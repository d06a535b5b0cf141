// What is asked of the fields of a program.
use crate::asked_code::words_of_named;
use crate::number::narrow;
use crate::program_names::{name_of_class, words_of_basic};
use crate::trouble::Trouble;
use cb_io::text_of;
use cb_kinds::Basic;
use cb_link::Program;
use std::alloc::Global;

/// Prints the static fields of the classes behind the library's: slot, class, name, what the values are, and what there is
/// before the class is initialised.
pub(crate) fn print_statics(
    alloc: Global,
    report: &mut String,
    program: &Program,
    known: u32,
) -> Result<(), Trouble> {
    for slot in 0..program.static_count() {
        if program.static_class(slot) >= known {
            print_static(alloc, report, program, slot)?;
        }
    }
    Ok(())
}

/// Prints a static field.
fn print_static(
    alloc: Global,
    report: &mut String,
    program: &Program,
    slot: u32,
) -> Result<(), Trouble> {
    if slot >= program.static_count() {
        return Err(Trouble::UnknownInProgram);
    }
    let class = name_of_class(program, program.static_class(slot))?;
    let name = text_of(alloc, program.static_name(slot))?;
    let basic = words_of_basic(alloc, program, program.static_basic(slot))?;
    let initial = words_of_named(alloc, program, program.static_initial(slot))?;
    writeln!(report, "static {slot} {class} {name} {basic} {initial}")?;
    Ok(())
}

/// Prints the fields of objects of a class: slots, and what the values are.
pub(crate) fn print_fields(
    alloc: Global,
    report: &mut String,
    program: &Program,
    class: u32,
) -> Result<(), Trouble> {
    if class as usize >= program.class_count() {
        return Err(Trouble::UnknownInProgram);
    }
    for slot in 0..narrow(program.field_count(class))? {
        let basic = basic_of_field(program, class, slot)?;
        let basic = words_of_basic(alloc, program, basic)?;
        writeln!(report, "field {slot} {basic}")?;
    }
    Ok(())
}

/// What the values of a field of objects of a class are.
fn basic_of_field(program: &Program, class: u32, slot: u32) -> Result<Basic, Trouble> {
    if class as usize >= program.class_count() || slot as usize >= program.field_count(class) {
        return Err(Trouble::UnknownInProgram);
    }
    Ok(program.field_basic(class, slot))
}

/// Prints the constants of an enum: slots and names.
pub(crate) fn print_enum(
    alloc: Global,
    report: &mut String,
    program: &Program,
    class: u32,
) -> Result<(), Trouble> {
    if class as usize >= program.class_count() {
        return Err(Trouble::UnknownInProgram);
    }
    for place in 0..program.static_count() as usize {
        if let Some(slot) = program.enum_static(class, place) {
            let name = text_of(alloc, program.static_name(slot))?;
            writeln!(report, "constant {slot} {name}")?;
        }
    }
    Ok(())
}
