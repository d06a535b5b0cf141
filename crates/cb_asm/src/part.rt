// Lines of one kind, one after the other.
ghost use Rattle.std.specs.Prelude.{◌≡◌, ◌≢◌, ◌↔◌, ◌∷◌, ◌++◌, IfOk, IsTrue, MatchOption, map};
ghost use Rattle.cb_asm.specs.Inner.{BeginsWithNone, TakesParts, frame_statement};
ghost use Rattle.cb_asm_line.specs.Statements.{IsWhole};
ghost use Rattle.cb_asm_line.specs.declared.statement.Statement.{Statement as AnyStatement};
ghost use Rattle.cb_asm_line.specs.declared.statement.Statement.TheVariants as statements;

use cb_asm_line::{CatchLine, CodeLine, FieldText, FrameLine, Statement};
use cb_plain::{List, OutOfMemory};
use cb_text::Units;
use std::alloc::Global;
use std::collections::VecDeque;

/// What lines of one kind say.
pub(crate) trait Part: Sized + Drop {
    /// The line of a part.
    ghost said: { Self → AnyStatement };

    /// Which parts have a line.
    ghost keeps: { Self → Type 0 };

    /// Whether a line is one of this kind.
    fn is_of(statement: &Statement) -> bool
        ensures { IsTrue result ↔ ((part : Self) × keeps part × (statement.now ≡ said part)) };

    /// What a line of this kind says, or `None` for another.
    fn of(statement: Statement) -> Option<Self>
        ensures { MatchOption result ((part : Self) → keeps part → statement ≢ said part)
            (λ part. keeps part × (statement ≡ said part)) };
}

/// What the first line says, which is taken off, or `None` where it is of another kind or where there is none.
fn next_part<T: Part>(statements: &mut VecDeque<Statement>) -> Option<T>
    ensures { MatchOption result ((statements.new.items ≡ statements.old.items) × BeginsWithNone T.said T.keeps statements.old.items)
        (λ part. T.keeps part × (statements.old.items ≡ T.said part ∷ statements.new.items)) }
{
    match statements.front() {
        Some(front) if T::is_of(front) => {}
        _ => return None,
    }
    match statements.pop_front() {
        Some(statement) => T::of(statement),
        None => None,
    }
}

/// What the first lines of this kind say, which are taken off.
pub(crate) fn take_parts<T: Part>(
    alloc: Global,
    statements: &mut VecDeque<Statement>,
) -> Result<List<T>, OutOfMemory>
    ensures { IfOk result (λ parts. TakesParts T.said T.keeps statements.old.items statements.new.items parts) }
{
    let mut parts = List::new(alloc);
    while let Some(part) = next_part(statements) {
        parts.push(part)?;
    }
    Ok(parts)
}

/// An interface.
impl Part for Units {
    ghost said = { statements.Implements };

    ghost keeps = { λ _. Unit {0} };

    fn is_of(statement: &Statement) -> bool {
        matches!(statement, Statement::Implements(_))
    }

    fn of(statement: Statement) -> Option<Units> {
        match statement {
            Statement::Implements(name) => Some(name),
            _ => None,
        }
    }
}

/// A field.
impl Part for FieldText {
    ghost said = { statements.Field };

    ghost keeps = { λ _. Unit {0} };

    fn is_of(statement: &Statement) -> bool {
        matches!(statement, Statement::Field(_))
    }

    fn of(statement: Statement) -> Option<FieldText> {
        match statement {
            Statement::Field(field) => Some(field),
            _ => None,
        }
    }
}

/// A line of code.
impl Part for CodeLine {
    ghost said = { statements.Code };

    ghost keeps = { λ _. Unit {0} };

    fn is_of(statement: &Statement) -> bool {
        matches!(statement, Statement::Code(_))
    }

    fn of(statement: Statement) -> Option<CodeLine> {
        match statement {
            Statement::Code(line) => Some(line),
            _ => None,
        }
    }
}

/// An entry of the exception table.
impl Part for CatchLine {
    ghost said = { statements.Catch };

    ghost keeps = { λ _. Unit {0} };

    fn is_of(statement: &Statement) -> bool {
        matches!(statement, Statement::Catch(_))
    }

    fn of(statement: Statement) -> Option<CatchLine> {
        match statement {
            Statement::Catch(entry) => Some(entry),
            _ => None,
        }
    }
}

/// A frame.
impl Part for FrameLine {
    ghost said = { frame_statement };

    ghost keeps = { IsWhole };

    fn is_of(statement: &Statement) -> bool {
        matches!(statement, Statement::Frame(_))
    }

    fn of(statement: Statement) -> Option<FrameLine> {
        match statement {
            Statement::Frame(frame) => Some(FrameLine::Full(frame)),
            _ => None,
        }
    }
}
