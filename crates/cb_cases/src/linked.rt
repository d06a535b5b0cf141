// A linked program, and what the lines of a case ask it.
use crate::asked_classes::{print_classes, print_initial, print_main, print_pool};
use crate::asked_code::print_method;
use crate::asked_decoded::print_decoded;
use crate::asked_fields::{print_enum, print_fields, print_statics};
use crate::asked_frames::{print_frames, print_typed};
use crate::asked_kinds::{print_kinds, print_relations};
use crate::asked_methods::print_selected;
use crate::asked_sites::{print_sites, print_texts};
use crate::program_names::class_named;
use crate::trouble::Trouble;
use cb_link::Program;
use std::alloc::Global;

/// A linked program, and how many of its classes are the library's.
#[derive(Drop)]
pub(crate) struct LinkedProgram {
    pub program: Program,
    pub known: u32,
}

impl LinkedProgram {
    /// Prints what a line asks.
    pub fn answer(&self, alloc: Global, report: &mut String, line: &str) -> Result<(), Trouble> {
        match line.split_once(' ') {
            Some((what, words)) => self.answer_of(alloc, report, what, words),
            None => self.answer_whole(alloc, report, line),
        }
    }

    /// Prints something of the whole program.
    fn answer_whole(&self, alloc: Global, report: &mut String, what: &str) -> Result<(), Trouble> {
        let program = &self.program;
        match what {
            "classes" => print_classes(report, program, self.known),
            "main" => print_main(alloc, report, program),
            "kinds" => print_kinds(alloc, report, program, self.known),
            "statics" => print_statics(alloc, report, program, self.known),
            "sites" => print_sites(alloc, report, program, self.known),
            "texts" => print_texts(alloc, report, program),
            "typed" => print_typed(alloc, report, program),
            _ => Err(Trouble::NotUnderstood),
        }
    }

    /// Prints something of what words name.
    fn answer_of(
        &self,
        alloc: Global,
        report: &mut String,
        what: &str,
        words: &str,
    ) -> Result<(), Trouble> {
        let program = &self.program;
        match what {
            "instance" | "assignable" => print_relations(alloc, report, program, what, words),
            "select" => print_selected(alloc, report, program, words),
            "method" => print_method(alloc, report, program, words),
            "decoded" => print_decoded(alloc, report, program, words),
            "frames" => print_frames(alloc, report, program, words),
            _ => self.answer_of_class(alloc, report, what, words),
        }
    }

    /// Prints something of a class.
    fn answer_of_class(
        &self,
        alloc: Global,
        report: &mut String,
        what: &str,
        name: &str,
    ) -> Result<(), Trouble> {
        let program = &self.program;
        let class = class_named(program, name)?;
        writeln!(report, "{what} {name}")?;
        match what {
            "initial" => print_initial(alloc, report, program, class),
            "fields" => print_fields(alloc, report, program, class),
            "enum" => print_enum(alloc, report, program, class),
            "pool" => print_pool(alloc, report, program, class),
            _ => Err(Trouble::NotUnderstood),
        }
    }
}
