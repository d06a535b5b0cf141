//! The program `cb_cases`: runs the cases of texts, over objects in memory, and prints what came of each.
//!
//! It reads the names of the texts, which are files of the folder data/. The first lines beside these names say how the texts are
//! written. Nothing is promised of what is printed, which the gate compares with the file `stdout`.
#![tactic(auto)]

mod asked_classes;
mod asked_code;
mod asked_decoded;
mod asked_fields;
mod asked_frames;
mod asked_kinds;
mod asked_methods;
mod asked_sites;
mod body;
mod calls;
mod cases;
mod command;
mod content;
mod data_file;
mod linked;
mod number;
mod printing;
mod program_names;
mod repeat;
mod setup;
mod trouble;

use cases::Cases;
use cb_io::{DirFolder, Folder};
use std::alloc::AllocError;
use std::io;
use std::process::ExitCode;

fn main(rt: HostRuntime) -> io::Result<ExitCode> {
    let subjects = io::read_to_string(rt.alloc(), rt.stdin())?;
    let mut data_folder = DirFolder::new(&rt);
    let mut cases = Cases::new(rt.alloc());
    read_subjects(&mut cases, &mut data_folder, subjects.as_str())?;
    print!(rt; "{}", cases.printed())?;
    Ok(if cases.had_trouble() {
        ExitCode::FAILURE
    } else {
        ExitCode::SUCCESS
    })
}

/// Reads the text of each subject, which a line names.
fn read_subjects<F: Folder>(
    cases: &mut Cases,
    data_folder: &mut F,
    subjects: &str,
) -> Result<(), AllocError> {
    for line in subjects.lines() {
        if !cases::says_nothing(line) {
            cases.read_subject(data_folder, line)?;
        }
    }
    cases.finish()
}
