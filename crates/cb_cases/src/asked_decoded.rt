// What is asked of decoded instructions.
use crate::asked_methods::words_of_selected;
use crate::program_names::{method_named, words_of_basic};
use crate::trouble::Trouble;
use cb_insn::{Insn, opcode};
use cb_link::Program;
use std::alloc::Global;

/// Prints by place which instructions branches lead to, what the values of fields are, and what an `invokespecial` runs.
pub(crate) fn print_decoded(
    alloc: Global,
    report: &mut String,
    program: &Program,
    words: &str,
) -> Result<(), Trouble> {
    let method = method_named(alloc, program, words)?;
    writeln!(report, "decoded {words}")?;
    if method >= program.method_count() {
        return Err(Trouble::UnknownInProgram);
    }
    if let Some(body) = &program.method(method).body {
        for placed in body.code.as_slice() {
            print_instruction(alloc, report, program, method, placed)?;
        }
    }
    Ok(())
}

/// Prints that of the instruction at a place.
fn print_instruction(
    alloc: Global,
    report: &mut String,
    program: &Program,
    method: u32,
    placed: &(u32, Insn),
) -> Result<(), Trouble> {
    let place = placed.0;
    let Some(decoded) = program.decoded(method, place) else {
        return Err(Trouble::UnknownInProgram);
    };
    if let Some(index) = decoded.leads {
        writeln!(report, "{place} leads to {index}")?;
    }
    if let Some(basic) = decoded.basic {
        let words = words_of_basic(alloc, program, basic)?;
        writeln!(report, "{place} of {words}")?;
    }
    if placed.1.opcode == opcode::INVOKESPECIAL {
        let words = words_of_selected(alloc, program, program.special(method, place))?;
        writeln!(report, "{place} runs {words}")?;
    }
    Ok(())
}
