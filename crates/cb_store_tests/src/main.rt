//! The program `cb_store_tests`: each row of the text that it reads is told by calls of roots, of the store that never lets an object go, or of a
//! small store that empties the cells which nothing reaches (`CellStore`), over which the trial of stores runs too.
#![tactic(auto)]

mod cell;
mod cells;
mod collected;
mod map_heap;
mod none;
mod roots;
mod stop;
mod text;

use cb_rows::{Tables, Trouble, number_of, tell_rows};
use std::alloc::Global;
use std::io;
use std::process::ExitCode;
use stop::Stop;

/// The tables: the first word of a table's name says what its rows call.
#[derive(Drop)]
struct Subjects {
    rt: HostRuntime,
}

impl Tables for Subjects {
    fn tell(&mut self, table: &str, row: &str, told: &mut String) -> Result<(), Trouble> {
        let alloc = self.rt.alloc();
        match table {
            "roots" => roots::tell(alloc, told, row),
            "full" => Ok(map_heap::tell_full(alloc, told, number_of(row)?)?),
            _ => Ok(tell_script(alloc, table, told)?),
        }
    }
}

/// Makes the calls of the script that a table names, and tells what they answer.
fn tell_script(alloc: Global, script: &str, told: &mut String) -> Result<(), Stop> {
    match script {
        "arguments" => roots::tell_arguments(alloc, told),
        "fields" => roots::tell_fields(alloc, told),
        "objects" => map_heap::tell(alloc, told),
        "string" => text::tell(alloc, told),
        "collected" => collected::tell(alloc, told),
        "linked" => collected::tell_linked(alloc, told),
        _ => Err(Stop::Refused),
    }
}

fn main(rt: HostRuntime) -> io::Result<ExitCode> {
    let text = io::read_to_string(rt.alloc(), rt.stdin())?;
    let mut subjects = Subjects { rt };
    let report = tell_rows(rt.alloc(), &mut subjects, text.as_str())?;
    print!(rt; "{}", report.text())?;
    Ok(if report.is_whole() {
        ExitCode::SUCCESS
    } else {
        ExitCode::FAILURE
    })
}
