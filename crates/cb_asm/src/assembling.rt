// Texts as records.
ghost use Rattle.std.specs.Prelude.{◌≡◌, ◌-◌, ◌^◌, ℕ, IfErr, IfOk, min};
ghost use Rattle.cb_asm.specs.Answers.{StandsUnassembled, greatest_line};
ghost use Rattle.cb_asm_record.specs.Grammar.{Assembles};
ghost use Rattle.cb_classfile.specs.Class.{IsWellFormed};
ghost use Rattle.cb_classfile.specs.declared.class.ClassFile.{ClassFile as AnyClass};

use crate::AsmFault;
use crate::assembled::assembled;
use crate::bad_line::bad_line;
use cb_classfile::ClassFile;
use std::alloc::Global;

/// The class record of a text of the assembly format, which is well formed and the only one. `BadLine` tells the first line
/// that is outside the format, and `OutOfMemory` that no memory was to be had. Takes time in the length of the text, times
/// the logarithm of the number of its constants and labels, and, where a line is bad, times that of the number of its lines;
/// and the time of asking whether a record is well formed.
pub fn assemble(alloc: Global, text: &str) -> Result<ClassFile, AsmFault>
    ensures assembled { IfOk result (λ class. Assembles text.now class) }
    ensures only { IfOk result (λ class. (other : AnyClass) → Assembles text.now other → other ≡ class) }
    ensures well_formed { IfOk result IsWellFormed }
    ensures bad { IfErr result (StandsUnassembled text.now) }
{
    assemble_bytes(alloc, text.as_bytes())
}

/// The same for any bytes, which may be no text: a line that isn't UTF-8 is outside the format.
pub fn assemble_bytes(alloc: Global, text: &[u8]) -> Result<ClassFile, AsmFault>
    ensures assembled { IfOk result (λ class. Assembles text.now class) }
    ensures only { IfOk result (λ class. (other : AnyClass) → Assembles text.now other → other ≡ class) }
    ensures well_formed { IfOk result IsWellFormed }
    ensures bad { IfErr result (StandsUnassembled text.now) }
{
    if let Some(class) = assembled(alloc, text)? {
        return Ok(class);
    }
    let line = bad_line(alloc, text)?;
    Err(AsmFault::BadLine { line: told(line) })
}

/// The number of a line, or the greatest that is told where it is behind that.
fn told(line: usize) -> u32
    ensures { result ≡ min line greatest_line }
{
    match u32::try_from(line) {
        Ok(line) => line,
        Err(_) => u32::MAX,
    }
}
