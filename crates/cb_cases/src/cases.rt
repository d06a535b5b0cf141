// The cases of the text.
use crate::body::try_body;
use crate::command::{do_command, link_main};
use crate::content::{Named, change};
use crate::data_file::text_of;
use crate::linked::LinkedProgram;
use crate::repeat::{Repeat, filled};
use crate::setup::Setup;
use crate::trouble::Trouble;
use cb_io::Folder;
use std::alloc::{AllocError, Global};
use std::collections::BTreeMap;
use std::mem;

/// Where the bytes belong that lines make.
#[derive(Drop)]
enum Target {
    /// Nowhere.
    Nothing,
    /// To a name, for later cases.
    Name(String),
    /// To the file at a path.
    File(String),
    /// To the input.
    Input,
}

/// What the lines of the text have said and done so far.
#[derive(Drop)]
pub(crate) struct Cases {
    alloc: Global,
    /// Bytes that have a name.
    named: Named,
    /// What the next command is handed.
    setup: Setup,
    /// Whether a case has begun that has run nothing.
    is_open: bool,
    /// The program that the last case linked.
    program: Option<Box<LinkedProgram>>,
    /// Where the bytes of the last lines belong.
    target: Target,
    /// These bytes.
    bytes: Vec<u8>,
    /// The lines of a repetition that has not ended.
    repeat: Option<Repeat>,
    /// The subject whose text is read.
    subject: String,
    /// How many lines of it were read.
    lines: usize,
    /// How many cases have begun.
    cases: usize,
    /// How many lines did nothing that should have done something.
    troubles: usize,
    /// What is printed.
    report: String,
}

impl Cases {
    /// No line was read.
    pub fn new(alloc: Global) -> Self {
        Cases {
            alloc,
            named: BTreeMap::new(alloc),
            setup: Setup::new(alloc),
            is_open: false,
            program: None,
            target: Target::Nothing,
            bytes: Vec::new(alloc),
            repeat: None,
            subject: String::new(alloc),
            lines: 0,
            cases: 0,
            troubles: 0,
            report: String::new(alloc),
        }
    }

    /// All that is printed.
    pub fn printed(&self) -> &str {
        self.report.as_str()
    }

    /// Whether there was a line that did nothing and should have done something.
    pub fn had_trouble(&self) -> bool {
        self.troubles > 0
    }

    /// Does what the lines of a subject's text say, which is a file of `data_folder`. Its `data` lines read other files there.
    pub fn read_subject<F: Folder>(
        &mut self,
        data_folder: &mut F,
        subject: &str,
    ) -> Result<(), AllocError> {
        self.subject = String::from_str(self.alloc, subject)?;
        self.lines = 0;
        match text_of(self.alloc, data_folder, subject) {
            Ok(text) => self.read_lines(data_folder, text.as_str()),
            Err(trouble) => self.tell(subject, Err(trouble)),
        }
    }

    /// Does what lines say.
    fn read_lines<F: Folder>(&mut self, data_folder: &mut F, text: &str) -> Result<(), AllocError> {
        for line in text.lines() {
            self.read_line(data_folder, line.trim_start())?;
        }
        Ok(())
    }

    /// Does what a line says.
    fn read_line<F: Folder>(&mut self, data_folder: &mut F, line: &str) -> Result<(), AllocError> {
        self.lines = self.lines.saturating_add(1);
        if says_nothing(line) {
            return Ok(());
        }
        let answer = self.gather(data_folder, line);
        self.tell(line, answer)
    }

    /// Ends the texts.
    pub fn finish(&mut self) -> Result<(), AllocError> {
        let answer = if self.is_open {
            Err(Trouble::NothingRun)
        } else if self.repeat.is_some() {
            Err(Trouble::EndlessRepeat)
        } else {
            Ok(())
        };
        self.tell("", answer)?;
        writeln!(self.report, "\n{} cases", self.cases)?;
        if self.troubles > 0 {
            writeln!(self.report, "{} lines in trouble", self.troubles)?;
        }
        Ok(())
    }

    /// Prints what came of a line that did nothing.
    fn tell(&mut self, line: &str, answer: Result<(), Trouble>) -> Result<(), AllocError> {
        if let Err(trouble) = answer {
            self.troubles = self.troubles.saturating_add(1);
            writeln!(
                self.report,
                "{} {} {trouble}: {line}",
                self.subject, self.lines
            )?;
        }
        Ok(())
    }

    /// Reads a line, or puts it aside where it is to be read more than once.
    fn gather<F: Folder>(&mut self, data_folder: &mut F, line: &str) -> Result<(), Trouble> {
        let (keyword, rest) = parts_of(line);
        match keyword {
            "end" if rest.is_empty() => {
                let repeat = self.repeat.take().ok_or(Trouble::NotUnderstood)?;
                self.read_repeated(data_folder, &repeat)?;
                Ok(())
            }
            "repeat" if self.repeat.is_none() => {
                self.repeat = Some(Repeat::new(self.alloc, rest)?);
                Ok(())
            }
            _ => {
                if let Some(repeat) = &mut self.repeat {
                    repeat.lines.push(String::from_str(self.alloc, line)?)?;
                    return Ok(());
                }
                self.obey(data_folder, keyword, rest)
            }
        }
    }

    /// Reads the lines of a repetition, once for each number.
    fn read_repeated<F: Folder>(
        &mut self,
        data_folder: &mut F,
        repeat: &Repeat,
    ) -> Result<(), AllocError> {
        for number in repeat.first..=repeat.last {
            self.read_once(data_folder, repeat.lines.as_slice(), number)?;
        }
        Ok(())
    }

    /// Reads lines with a number put in. One that does nothing is told with the number of the line that ends them.
    fn read_once<F: Folder>(
        &mut self,
        data_folder: &mut F,
        lines: &[String],
        number: usize,
    ) -> Result<(), AllocError> {
        for line in lines {
            let line = filled(self.alloc, line.as_str(), number)?;
            let (keyword, rest) = parts_of(line.as_str());
            let answer = self.obey(data_folder, keyword, rest);
            self.tell(line.as_str(), answer)?;
        }
        Ok(())
    }

    /// Does what a line with this keyword says.
    fn obey<F: Folder>(
        &mut self,
        data_folder: &mut F,
        keyword: &str,
        rest: &str,
    ) -> Result<(), Trouble> {
        match keyword {
            "|" | "text" | "hex" | "fill" | "same" | "data" | "cut" | "assemble" => {
                self.change_bytes(data_folder, keyword, rest)
            }
            _ => {
                self.store()?;
                self.obey_anew(keyword, rest)
            }
        }
    }

    /// Does what a line says that adds to no bytes.
    fn obey_anew(&mut self, keyword: &str, rest: &str) -> Result<(), Trouble> {
        match keyword {
            "bytes" => {
                self.target = Target::Name(String::from_str(self.alloc, rest)?);
                Ok(())
            }
            "case" => {
                self.setup = Setup::new(self.alloc);
                self.begin(rest)
            }
            "again" => {
                self.setup.begin_again();
                self.begin(rest)
            }
            "ask" => self.ask(rest),
            "body" if self.cases > 0 => self.try_body(rest),
            _ if self.is_open => self.obey_in_case(keyword, rest),
            _ => Err(Trouble::OutsideOfCase),
        }
    }

    /// Adds to the bytes of the last lines, or changes them.
    fn change_bytes<F: Folder>(
        &mut self,
        data_folder: &mut F,
        keyword: &str,
        rest: &str,
    ) -> Result<(), Trouble> {
        if let Target::Nothing = &self.target {
            return Err(Trouble::OutsideOfBytes);
        }
        change(
            self.alloc,
            &mut self.bytes,
            &self.named,
            data_folder,
            keyword,
            rest,
        )
    }

    /// Does what a line of a case says.
    fn obey_in_case(&mut self, keyword: &str, rest: &str) -> Result<(), Trouble> {
        match keyword {
            "file" => self.target = Target::File(String::from_str(self.alloc, rest)?),
            "input" if rest.is_empty() => self.target = Target::Input,
            "folder" | "input" | "out" | "err" => self.setup.set_calls(keyword, rest)?,
            "word" => self.setup.add_word(rest)?,
            "tally" if rest.is_empty() => self.setup.tell_tally(),
            "link" => {
                self.program = link_main(self.alloc, &mut self.setup, &mut self.report, rest)?;
                self.is_open = false;
            }
            _ => {
                let alloc = self.alloc;
                do_command(alloc, &mut self.setup, &mut self.report, keyword, rest)?;
                self.is_open = false;
            }
        }
        Ok(())
    }

    /// Does what a line asks of the program that the case has linked.
    fn ask(&mut self, line: &str) -> Result<(), Trouble> {
        match &self.program {
            Some(program) => program.answer(self.alloc, &mut self.report, line),
            None => Err(Trouble::NothingLinked),
        }
    }

    /// Tries a method in the class of the bytes with the name `around`.
    fn try_body(&mut self, line: &str) -> Result<(), Trouble> {
        self.is_open = false;
        let around = self.named.get("around").ok_or(Trouble::UnknownName)?;
        try_body(
            self.alloc,
            &mut self.setup,
            &mut self.report,
            around.as_slice(),
            line,
        )
    }

    /// Begins a case with a title.
    fn begin(&mut self, title: &str) -> Result<(), Trouble> {
        let was_open = self.is_open;
        self.is_open = true;
        self.program = None;
        if self.cases > 0 {
            self.report.push('\n')?;
        }
        self.cases = self.cases.saturating_add(1);
        writeln!(self.report, "case {title}")?;
        if was_open {
            Err(Trouble::NothingRun)
        } else {
            Ok(())
        }
    }

    /// Puts the bytes of the last lines where they belong.
    fn store(&mut self) -> Result<(), Trouble> {
        let bytes = mem::replace(&mut self.bytes, Vec::new(self.alloc));
        match mem::replace(&mut self.target, Target::Nothing) {
            Target::Nothing => {}
            Target::Name(name) => {
                self.named.insert(name, bytes)?;
            }
            Target::File(path) => self.setup.put(path.as_str(), bytes)?,
            Target::Input => self.setup.set_input(bytes),
        }
        Ok(())
    }
}

/// Whether a line is empty or a comment.
pub(crate) fn says_nothing(line: &str) -> bool {
    line.is_empty() || line.starts_with('#')
}

/// The word at the front of a line, and what stands behind the blank after it.
fn parts_of(line: &str) -> (&str, &str) {
    line.split_once(' ').unwrap_or((line, ""))
}
