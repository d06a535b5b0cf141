//! The program `cb_text_tests`: the tests of names and descriptors, of kinds, of texts and constant pools, and of instructions. Each row of the
//! text that it reads is told by calls of the crate that is tested.
#![tactic(auto)]

mod code;
mod insn;
mod kinds;
mod names;
mod pool;
mod shapes;
mod text;

use cb_rows::{Tables, Trouble, tell_rows};
use std::io;
use std::process::ExitCode;

/// The tables of the crates that are tested: the first word of a table's name is that of its crate.
#[derive(Drop)]
struct Subjects {
    rt: HostRuntime,
}

impl Tables for Subjects {
    fn tell(&mut self, table: &str, row: &str, told: &mut String) -> Result<(), Trouble> {
        let alloc = self.rt.alloc();
        match table.split_once(' ') {
            Some(("insn", name)) => insn::tell(&self.rt, told, name, row),
            Some(("kinds", name)) => kinds::tell(alloc, told, name, row),
            Some(("names", name)) => names::tell(alloc, told, name, row),
            Some(("pool", name)) => pool::tell(&self.rt, told, name, row),
            Some(("shapes", name)) => shapes::tell(alloc, told, name, row),
            Some(("text", name)) => text::tell(alloc, told, name, row),
            _ => Err(Trouble::NotUnderstood),
        }
    }
}

fn main(rt: HostRuntime) -> io::Result<ExitCode> {
    let text = io::read_to_string(rt.alloc(), rt.stdin())?;
    let mut subjects = Subjects { rt };
    let report = tell_rows(rt.alloc(), &mut subjects, text.as_str())?;
    print!(rt; "{}", report.text())?;
    Ok(if report.is_whole() {
        ExitCode::SUCCESS
    } else {
        ExitCode::FAILURE
    })
}
