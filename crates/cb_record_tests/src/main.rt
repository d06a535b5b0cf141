//! The program `cb_record_tests`: the tests of the crates that read and write class records and assembly. Each row of the text that it reads is
//! told by calls of the crate that is tested. The class files and texts that rows name stand in `data/`.
#![tactic(auto)]

mod asked;
mod asm;
mod changed;
mod classfile;
mod core_records;
mod costs;
mod flags;
mod given;
mod line;
mod names;
mod program;
mod record;
mod spelled;
mod texts;
mod writer;

use cb_rows::{Tables, Trouble, tell_rows};
use std::io;
use std::process::ExitCode;

/// The tables of the crates that are tested: the first word of a table's name is that of what it is of.
#[derive(Drop)]
struct Subjects {
    rt: HostRuntime,
}

impl Tables for Subjects {
    fn tell(&mut self, table: &str, row: &str, told: &mut String) -> Result<(), Trouble> {
        let alloc = self.rt.alloc();
        match table.split_once(' ') {
            Some(("asked", name)) => asked::tell(alloc, told, name, row),
            Some(("asm", name)) => asm::tell(&self.rt, told, name, row),
            Some(("changed", name)) => changed::tell(&self.rt, told, name, row),
            Some(("core", _)) => core_records::tell(alloc, told),
            Some(("costs", name)) => costs::tell(alloc, told, name, row),
            Some(("file", name)) => classfile::tell(&self.rt, told, name, row),
            Some(("flags", name)) => flags::tell(told, name, row),
            Some(("line", name)) => line::tell(alloc, told, name, row),
            Some(("names", _)) => names::tell(&self.rt, told, row),
            Some(("program", _)) => program::tell(alloc, told, row),
            Some(("writer", _)) => writer::tell(&self.rt, told, row),
            _ => Err(Trouble::NotUnderstood),
        }
    }
}

fn main(rt: HostRuntime) -> io::Result<ExitCode> {
    let text = io::read_to_string(rt.alloc(), rt.stdin())?;
    let mut subjects = Subjects { rt };
    let report = tell_rows(rt.alloc(), &mut subjects, text.as_str())?;
    print!(rt; "{}", report.text())?;
    Ok(if report.is_whole() {
        ExitCode::SUCCESS
    } else {
        ExitCode::FAILURE
    })
}
