//! The program `cb_graph_cases`, for each line of the text that it reads. A line has a number of nodes, edges (as `0>1`, or `0-3>4-7` from each of some nodes
//! to each of others) and gains (as `-5`, or `3*-5` for three of them). Of it the program prints the parts of the graph, the edges between them, the best
//! set, what it gains, how much flows, and what the checker says of it, or of a set and a flow that the line has (as `set:0=1` and `source:1=2`). A line may
//! say that the graph is condensed or a set chosen so many times more (as `choose:100`), which changes nothing that is printed. Or a line has facts of a part (as
//! `facts 100 60 40 1 4 held`); of these the program prints how many words survive by each estimate, by rules whose closures it makes, and what the part gains
//! then. Nothing is promised of what is printed, which the gate compares with the file beside the text; that file was made by a program that tries all sets.
#![tactic(auto)]

mod answer;
mod case;
mod change;
mod choice;
mod facts;
mod gains;
mod span;
mod times;

ghost use Rattle.std.specs.Prelude.{◌≡◌, Some};
ghost use Rattle.cb_plain.specs.Estimates.{AreFacts, age_code, all_code, half_code, survive};

use answer::answer;
use case::read_case;
use cb_estimator::Rule;
use cb_plain::{Facts, Name};
use facts::{by_age, read_facts, tell_survivors};
use std::alloc::{AllocError, Global};
use std::io;

fn main(rt: HostRuntime) -> io::Result<()> {
    let alloc = rt.alloc();
    let all = |facts: Facts| -> u64
        requires { AreFacts facts }
        ensures { survive all_code facts ≡ Some result }
    { facts.used };
    let age = |facts: Facts| -> u64
        requires { AreFacts facts }
        ensures { survive age_code facts ≡ Some result }
    { by_age(facts) };
    let half = |facts: Facts| -> u64
        requires { AreFacts facts }
        ensures { survive half_code facts ≡ Some result }
    { facts.used / 2 };
    let rules = [
        Rule::make(Name::of(alloc, "all")?, 0, Box::new(alloc, all)?),
        Rule::make(Name::of(alloc, "age")?, 1, Box::new(alloc, age)?),
        Rule::make(Name::of(alloc, "half")?, 2, Box::new(alloc, half)?),
    ];
    let text = io::read_to_string(rt.alloc(), rt.stdin())?;
    for line in text.lines() {
        let told = tell(rt.alloc(), &rules, line)?;
        println!(rt; "{told}")?;
    }
    Ok(())
}

/// What there is to say of a line.
fn tell(alloc: Global, rules: &[Rule], line: &str) -> Result<String, AllocError> {
    if let Some(facts) = read_facts(line) {
        return tell_survivors(alloc, rules, facts);
    }
    match read_case(alloc, line)? {
        Some(case) => answer(alloc, &case),
        None => String::from_str(alloc, "no case"),
    }
}
