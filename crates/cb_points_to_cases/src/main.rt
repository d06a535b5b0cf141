//! The program `cb_points_to_cases`, for each line of the text that it reads. A line has a number of nodes, one of sites, and words that make constraints:
//! `owner:3=1` and `static:4` say what nodes stand for; `filter:0,2`, `slots:0=5,2=6` and `calls:0=4/5,6/7;1=8//` are tables, that are numbered from 0 by
//! their kind (a callee is told as its site, its receiver, its arguments and its result); `has:n,s`, `each:base,slots,s`, `copy:from,to`,
//! `through:from,to,filter`, `load:base,slots,to`, `store:from,base,slots`, `between:source,target,slots` and `call:receiver,calls/arguments/result` are
//! inclusions. Of it the program prints each node with its owner (`@1`), whether it is a static (`!`), and its sites; or `no case`, where a word isn't
//! understood or names what isn't there. Nothing is promised of what is printed, which the gate compares with the file beside the text; that file was
//! made by hand and by `bench/points_to/closure.py`.
#![tactic(auto)]

mod answer;
mod case;
mod inclusions;
mod tables;
mod words;

use answer::answer;
use case::read_case;
use std::alloc::{AllocError, Global};
use std::io;

fn main(rt: HostRuntime) -> io::Result<()> {
    let text = io::read_to_string(rt.alloc(), rt.stdin())?;
    for line in text.lines() {
        let told = tell(rt.alloc(), line)?;
        println!(rt; "{told}")?;
    }
    Ok(())
}

/// What there is to say of a line.
fn tell(alloc: Global, line: &str) -> Result<String, AllocError> {
    match read_case(alloc, line)? {
        Some(constraints) => answer(alloc, &constraints),
        None => String::from_str(alloc, "no case"),
    }
}
