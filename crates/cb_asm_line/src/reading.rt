// What a line says.
ghost use Rattle.std.specs.Prelude.{◌≡◌, ◌≢◌, IfOk, MatchOption};
ghost use Rattle.cb_asm_line.specs.Statements.{IsStatement, statement_text};
ghost use Rattle.cb_asm_line.specs.declared.statement.Statement.{Statement as AnyStatement};

use crate::Statement;
use crate::line::words;
use crate::said::statement_of;
use cb_plain::OutOfMemory;
use std::alloc::Global;

/// What a line without its newline says, or `None` where it is none of the format. `OutOfMemory` where no memory was to be
/// had. Takes time in the length of the line.
pub fn read_line(alloc: Global, line: &[u8]) -> Result<Option<Statement>, OutOfMemory>
    ensures said { IfOk result (λ found. MatchOption found ((other : AnyStatement) → IsStatement other → line.now ≢ statement_text other)
        (λ statement. IsStatement statement × (line.now ≡ statement_text statement))) }
{
    said_in(alloc, line)
}

/// The same by the words of the line.
fn said_in(alloc: Global, line: &[u8]) -> Result<Option<Statement>, OutOfMemory>
    ensures { IfOk result (λ found. MatchOption found ((other : AnyStatement) → IsStatement other → line.now ≢ statement_text other)
        (λ statement. IsStatement statement × (line.now ≡ statement_text statement))) }
{
    let words = words(alloc, line)?;
    statement_of(alloc, words.as_slice())
}
