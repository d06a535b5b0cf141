//! The program `cb_collection_cases`: each row of the text that it reads tells calls of a heap in parts, and then a collection of a set of its parts, by marking
//! and sliding; it prints what is left. Nothing is promised of what is printed, which the gate compares with the file beside the text; that file was made by a
//! program with lists of objects (`bench/memory/collected.py`). Rows that collect many objects of one form are there to be timed
//! (`bench/memory/time_collected.py`).
#![tactic(auto)]

mod collected;
mod collecting;
mod rooted;
mod timed;
mod walked;

use cb_rows::{Tables, Trouble, tell_rows};
use std::io::{Result as IoResult, read_to_string};
use std::process::ExitCode;

/// The tables: the first word of a table's name says what its rows are.
#[derive(Drop)]
struct Subjects {
    rt: HostRuntime,
}

impl Tables for Subjects {
    fn tell(&mut self, table: &str, row: &str, told: &mut String) -> Result<(), Trouble> {
        let alloc = self.rt.alloc();
        match table.split_whitespace().next() {
            Some("collected") => collected::tell(alloc, told, row),
            Some("timed") => timed::tell(alloc, told, row),
            _ => Err(Trouble::NotUnderstood),
        }
    }
}

fn main(rt: HostRuntime) -> IoResult<ExitCode> {
    let text = read_to_string(rt.alloc(), rt.stdin())?;
    let mut subjects = Subjects { rt };
    let report = tell_rows(rt.alloc(), &mut subjects, text.as_str())?;
    print!(rt; "{}", report.text())?;
    Ok(if report.is_whole() {
        ExitCode::SUCCESS
    } else {
        ExitCode::FAILURE
    })
}
