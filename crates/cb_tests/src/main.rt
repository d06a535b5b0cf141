//! The program `cb_tests`: the tests of lists, sets and flows, of persistent arrays and stacks, of hierarchies, of the objects outside, of the
//! arithmetic and of the table of natives. Each row of the text that it reads is told by calls of the crate that is tested.
#![tactic(auto)]

mod arith;
mod estimates;
mod files;
mod hierarchy;
mod io;
mod library;
mod persistent;
mod plain;
mod samples;
mod steps;

use cb_rows::{Tables, Trouble, tell_rows};
use std::io::{Result as IoResult, read_to_string};
use std::process::ExitCode;

/// The tables of the crates that are tested: the first word of a table's name is that of its crate.
#[derive(Drop)]
struct Subjects {
    rt: HostRuntime,
}

impl Tables for Subjects {
    fn tell(&mut self, table: &str, row: &str, told: &mut String) -> Result<(), Trouble> {
        let alloc = self.rt.alloc();
        match table.split_once(' ') {
            Some(("arith", name)) => arith::tell(told, name, row),
            Some(("files", name)) => files::tell(&self.rt, told, name, row),
            Some(("hierarchy", name)) => hierarchy::tell(alloc, told, name, row),
            Some(("io", name)) => io::tell(alloc, told, name, row),
            Some(("library", name)) => library::tell(told, name, row),
            Some(("persistent", name)) => persistent::tell(alloc, told, name, row),
            Some(("plain", name)) => plain::tell(alloc, told, name, row),
            _ => Err(Trouble::NotUnderstood),
        }
    }
}

fn main(rt: HostRuntime) -> IoResult<ExitCode> {
    let text = read_to_string(rt.alloc(), rt.stdin())?;
    let mut subjects = Subjects { rt };
    let report = tell_rows(rt.alloc(), &mut subjects, text.as_str())?;
    print!(rt; "{}", report.text())?;
    Ok(if report.is_whole() {
        ExitCode::SUCCESS
    } else {
        ExitCode::FAILURE
    })
}
