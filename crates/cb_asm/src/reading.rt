// The program of a text.
ghost use Rattle.std.specs.Prelude.{◌≡◌, ◌≢◌, List, IfOk, MatchOption};
ghost use Rattle.std.specs.List.{AllByRecursion};
ghost use Rattle.cb_asm.specs.Inner.{said_text};
ghost use Rattle.cb_asm_line.specs.Spelling.{program_text};
ghost use Rattle.cb_asm_line.specs.Statements.{HasLines, IsStatement};
ghost use Rattle.cb_asm_line.specs.declared.program.Program.{Program as AnyProgram};
ghost use Rattle.cb_asm_line.specs.declared.statement.Statement.{Statement as AnyStatement};

use crate::gathering::gather;
use cb_asm_line::{Program, Statement, first_line, read_line};
use cb_plain::OutOfMemory;
use std::alloc::Global;
use std::collections::VecDeque;

/// The program whose text this is, or `None` where it is none's.
pub(crate) fn read_program(alloc: Global, text: &[u8]) -> Result<Option<Program>, OutOfMemory>
    ensures { IfOk result (λ found. MatchOption found
        ((other : AnyProgram) → HasLines other → text.now ≢ program_text other)
        (λ program. HasLines program × (text.now ≡ program_text program))) }
{
    match statements(alloc, text)? {
        Some(lines) => gather(alloc, lines),
        None => Ok(None),
    }
}

/// What the lines of a text say, or `None` where one of them says nothing.
fn statements(alloc: Global, text: &[u8]) -> Result<Option<VecDeque<Statement>>, OutOfMemory>
    ensures { IfOk result (λ found. MatchOption found
        ((others : List AnyStatement) → AllByRecursion IsStatement others → text.now ≢ said_text others)
        (λ lines. AllByRecursion IsStatement lines.items × (text.now ≡ said_text lines.items))) }
{
    let mut lines = VecDeque::new(alloc);
    let mut rest = text;
    'lines: while !rest.is_empty() {
        let Some((line, behind)) = first_line(rest) else {
            return Ok(None);
        };
        let Some(statement) = read_line(alloc, line)? else {
            return Ok(None);
        };
        lines.push_back(statement)?;
        rest = behind;
    }
    Ok(Some(lines))
}
