// The program of some lines.
ghost use Rattle.std.specs.Prelude.{◌≡◌, ◌≢◌, ◌∷◌, ◌++◌, List, Option, IfOk, IfSome, IsFalse, IsTrue, MatchOption};
ghost use Rattle.std.specs.List.{AllByRecursion, flat_map};
ghost use Rattle.cb_asm.specs.Inner.{IsLimited, IsMethod};
ghost use Rattle.cb_asm_line.specs.Statements.{AreWhole, code_statements, method_statements, statements_of};
ghost use Rattle.cb_asm_line.specs.declared.program.CodeText.{CodeText as AnyCode};
ghost use Rattle.cb_asm_line.specs.declared.program.MethodText.{MethodText as AnyMethod};
ghost use Rattle.cb_asm_line.specs.declared.program.Program.{Program as AnyProgram};
ghost use Rattle.cb_asm_line.specs.declared.statement.ClassLine.{ClassLine as AnyClassLine};
ghost use Rattle.cb_asm_line.specs.declared.statement.Limits.{Limits as AnyLimits};
ghost use Rattle.cb_asm_line.specs.declared.statement.MethodLine.{MethodLine as AnyMethodLine};
ghost use Rattle.cb_asm_line.specs.declared.statement.Statement.{Statement as AnyStatement};
ghost use Rattle.cb_asm_line.specs.declared.statement.Statement.TheVariants as statements;

use crate::part::take_parts;
use cb_asm_line::{ClassLine, CodeText, Limits, MethodLine, MethodText, Program, Statement};
use cb_plain::{List, OutOfMemory};
use std::alloc::Global;
use std::collections::VecDeque;

/// The program whose lines these are, or `None` where they are none's.
pub(crate) fn gather(
    alloc: Global,
    mut lines: VecDeque<Statement>,
) -> Result<Option<Program>, OutOfMemory>
    ensures { IfOk result (λ found. MatchOption found
        ((other : AnyProgram) → AllByRecursion IsMethod other.methods → statements_of other ≢ lines.items)
        (λ program. AllByRecursion IsMethod program.methods × (statements_of program ≡ lines.items))) }
{
    let Some(class) = class_at(&mut lines) else {
        return Ok(None);
    };
    let interfaces = take_parts(alloc, &mut lines)?;
    let fields = take_parts(alloc, &mut lines)?;
    match methods(alloc, lines)? {
        Some(methods) => Ok(Some(Program {
            major: class.major,
            flags: class.flags,
            name: class.name,
            superclass: class.superclass,
            interfaces,
            fields,
            methods,
        })),
        None => Ok(None),
    }
}

/// What the first line says of a class, which is taken off.
fn class_at(lines: &mut VecDeque<Statement>) -> Option<ClassLine>
    ensures { MatchOption result ((line : AnyClassLine) (rest : List AnyStatement) → lines.old.items ≢ statements.Class line ∷ rest)
        (λ line. lines.old.items ≡ statements.Class line ∷ lines.new.items) }
{
    match lines.pop_front() {
        Some(Statement::Class(line)) => Some(line),
        _ => None,
    }
}

/// The methods whose lines these are, or `None` where they are none's.
fn methods(
    alloc: Global,
    mut lines: VecDeque<Statement>,
) -> Result<Option<List<MethodText>>, OutOfMemory>
    ensures { IfOk result (λ found. MatchOption found
        ((others : List AnyMethod) → AllByRecursion IsMethod others → flat_map method_statements others ≢ lines.items)
        (λ methods. AllByRecursion IsMethod methods × (flat_map method_statements methods ≡ lines.items))) }
{
    let mut methods = List::new(alloc);
    'methods: while !lines.is_empty() {
        let Some(method) = method(alloc, &mut lines)? else {
            return Ok(None);
        };
        methods.push(method)?;
    }
    Ok(Some(methods))
}

/// The method whose lines stand first and are taken off, or `None` where none's do.
fn method(alloc: Global, lines: &mut VecDeque<Statement>) -> Result<Option<MethodText>, OutOfMemory>
    ensures { IfOk result (λ found. MatchOption found
        ((other : AnyMethod) (rest : List AnyStatement) → IsMethod other → lines.old.items ≢ method_statements other ++ rest)
        (λ method. IsMethod method × (lines.old.items ≡ method_statements method ++ lines.new.items))) }
{
    let Some(line) = method_at(lines) else {
        return Ok(None);
    };
    let code = code(alloc, lines)?;
    if !is_ended(lines) {
        return Ok(None);
    }
    Ok(Some(MethodText {
        flags: line.flags,
        name: line.name,
        descriptor: line.descriptor,
        code,
    }))
}

/// What the first line says of a method, which is taken off.
fn method_at(lines: &mut VecDeque<Statement>) -> Option<MethodLine>
    ensures { MatchOption result ((line : AnyMethodLine) (rest : List AnyStatement) → lines.old.items ≢ statements.Method line ∷ rest)
        (λ line. lines.old.items ≡ statements.Method line ∷ lines.new.items) }
{
    match lines.pop_front() {
        Some(Statement::Method(line)) => Some(line),
        _ => None,
    }
}

/// Whether the first line is the end of a method, which is taken off.
fn is_ended(lines: &mut VecDeque<Statement>) -> bool
    ensures yes { IsTrue result → lines.old.items ≡ statements.End ∷ lines.new.items }
    ensures no { IsFalse result → (rest : List AnyStatement) → lines.old.items ≢ statements.End ∷ rest }
{
    matches!(lines.pop_front(), Some(Statement::End))
}

/// The code whose lines stand first, up to the end of its method, and are taken off, or `None` where none's do.
fn code(alloc: Global, lines: &mut VecDeque<Statement>) -> Result<Option<CodeText>, OutOfMemory>
    ensures taken { IfOk result (λ code. IfSome code AreWhole × (lines.old.items ≡ code_statements code ++ lines.new.items)) }
    ensures only { IfOk result (λ code. (other : Option AnyCode) (rest : List AnyStatement) → IfSome other AreWhole
        → lines.old.items ≡ code_statements other ++ statements.End ∷ rest → lines.new.items ≡ statements.End ∷ rest) }
{
    match limits_at(lines) {
        Some(limits) => Ok(Some(limited(alloc, limits, lines)?)),
        None => Ok(None),
    }
}

/// The limits that the first line says, which is taken off, or `None` where it says none.
fn limits_at(lines: &mut VecDeque<Statement>) -> Option<Limits>
    ensures { MatchOption result ((lines.new.items ≡ lines.old.items) × ((limits : AnyLimits) (rest : List AnyStatement) → lines.old.items ≢ statements.Limits limits ∷ rest))
        (λ limits. lines.old.items ≡ statements.Limits limits ∷ lines.new.items) }
{
    match lines.front() {
        Some(Statement::Limits(limits)) => {
            let limits = *limits;
            let _ = lines.pop_front();
            Some(limits)
        }
        _ => None,
    }
}

/// The code of these limits whose other lines stand first and are taken off.
fn limited(
    alloc: Global,
    limits: Limits,
    lines: &mut VecDeque<Statement>,
) -> Result<CodeText, OutOfMemory>
    ensures { IfOk result (λ code. IsLimited limits lines.old.items lines.new.items code) }
{
    let code = take_parts(alloc, lines)?;
    let catches = take_parts(alloc, lines)?;
    let frames = take_parts(alloc, lines)?;
    Ok(CodeText {
        stack: limits.stack,
        locals: limits.locals,
        lines: code,
        catches,
        frames,
    })
}
