// What is printed.
use crate::{Tables, Trouble};
use std::alloc::{AllocError, Global};

/// What the lines of a text have told so far.
#[derive(Drop)]
pub struct Report {
    alloc: Global,
    /// The name of the table whose rows come.
    table: String,
    /// How many lines were read.
    lines: usize,
    /// How many of them are rows.
    rows: usize,
    /// Of how many nothing was told.
    troubles: usize,
    /// What is printed.
    text: String,
}

/// Reads the lines of a text, has each row told, and gives all that is printed. `AllocError` where no memory was to be had for it.
pub fn tell_rows<T: Tables>(
    alloc: Global,
    tables: &mut T,
    text: &str,
) -> Result<Report, AllocError> {
    let mut report = Report::new(alloc);
    for line in text.lines() {
        report.read_line(tables, line)?;
    }
    report.finish()?;
    Ok(report)
}

impl Report {
    /// No line was read.
    fn new(alloc: Global) -> Self {
        Report {
            alloc,
            table: String::new(alloc),
            lines: 0,
            rows: 0,
            troubles: 0,
            text: String::new(alloc),
        }
    }

    /// All that is printed.
    pub fn text(&self) -> &str {
        self.text.as_str()
    }

    /// Whether something was told of each row, and each other line was understood.
    pub fn is_whole(&self) -> bool {
        self.troubles == 0
    }

    /// Does what a line says.
    fn read_line<T: Tables>(&mut self, tables: &mut T, line: &str) -> Result<(), AllocError> {
        self.lines = self.lines.saturating_add(1);
        if line.is_empty() || line.starts_with('#') {
            return Ok(());
        }
        let (word, rest) = line.split_once(' ').unwrap_or((line, ""));
        let answer = match word {
            "table" => self.begin(rest),
            "|" => self.tell(tables, rest),
            _ => Err(Trouble::NotUnderstood),
        };
        match answer {
            Ok(()) => Ok(()),
            Err(trouble) => self.complain(line, trouble),
        }
    }

    /// Begins a table.
    fn begin(&mut self, name: &str) -> Result<(), Trouble> {
        self.table = String::from_str(self.alloc, name)?;
        writeln!(self.text, "\ntable {name}")?;
        Ok(())
    }

    /// Adds a row with what is told of it.
    fn tell<T: Tables>(&mut self, tables: &mut T, row: &str) -> Result<(), Trouble> {
        self.rows = self.rows.saturating_add(1);
        let mut told = String::new(self.alloc);
        tables.tell(self.table.as_str(), row, &mut told)?;
        self.text.push('|')?;
        self.push(row)?;
        self.text.push_str(" |")?;
        self.push(told.as_str().trim())?;
        self.text.push('\n')?;
        Ok(())
    }

    /// Adds one side of a row: behind a blank, or where it has several lines, on lines of its own.
    fn push(&mut self, side: &str) -> Result<(), AllocError> {
        if side.contains('\n') {
            self.text.push('\n')?;
        } else if !side.is_empty() {
            self.text.push(' ')?;
        }
        self.text.push_str(side)
    }

    /// Adds that nothing was told of a line.
    fn complain(&mut self, line: &str, trouble: Trouble) -> Result<(), AllocError> {
        self.troubles = self.troubles.saturating_add(1);
        writeln!(self.text, "line {} {trouble}: {line}", self.lines)
    }

    /// Ends the text.
    fn finish(&mut self) -> Result<(), AllocError> {
        writeln!(self.text, "\n{} rows", self.rows)?;
        if self.troubles > 0 {
            writeln!(self.text, "{} lines in trouble", self.troubles)?;
        }
        Ok(())
    }
}
