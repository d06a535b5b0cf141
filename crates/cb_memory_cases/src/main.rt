//! The program `cb_memory_cases`: each row of the text that it reads is told by calls of blocks, of the heap in parts or of its stack, as the row says them, or by a loop
//! over calls of a store. Nothing is promised of what is printed, which the gate compares with the file beside the text; that file was made by a program with
//! lists of words and of objects (`bench/memory/cases.py`). The loops are there to be timed (`bench/memory/time.py`), and are generic, so that they are the same
//! over each store.
#![tactic(auto)]

mod blocks;
mod parts;
mod stores;
mod strings;
mod timed;
mod trial;
mod turns;

use cb_rows::{Tables, Trouble, tell_rows};
use std::io::{Result as IoResult, read_to_string};
use std::process::ExitCode;

/// The tables: the first word of a table's name says what its rows call.
#[derive(Drop)]
struct Subjects {
    rt: HostRuntime,
}

impl Tables for Subjects {
    fn tell(&mut self, table: &str, row: &str, told: &mut String) -> Result<(), Trouble> {
        let alloc = self.rt.alloc();
        match table.split_whitespace().next() {
            Some("blocks") => blocks::tell(alloc, told, row),
            Some("parts") => parts::tell(alloc, told, row),
            Some("stack") => strings::tell_stack(alloc, told, row),
            Some("string") => strings::tell(alloc, told),
            Some("trial") => trial::tell(alloc, told),
            Some("timed") => timed::tell(alloc, told, row),
            _ => Err(Trouble::NotUnderstood),
        }
    }
}

fn main(rt: HostRuntime) -> IoResult<ExitCode> {
    let text = read_to_string(rt.alloc(), rt.stdin())?;
    let mut subjects = Subjects { rt };
    let report = tell_rows(rt.alloc(), &mut subjects, text.as_str())?;
    print!(rt; "{}", report.text())?;
    Ok(if report.is_whole() {
        ExitCode::SUCCESS
    } else {
        ExitCode::FAILURE
    })
}
