// The instructions of code, with their places.
ghost use Rattle.std.specs.Prelude.{◌≡◌, ◌<◌, ◌^◌, ◌++◌, [], ◌∷◌};
ghost use Rattle.cb_asm_record.specs.Inner.{AreInstructions, LineStands, Makes, MakesLine, behind};
ghost use Rattle.cb_asm_record.specs.Labels.{code_from, place_at};
ghost use Rattle.cb_asm_line.specs.declared.program.CodeLine.TheVariants.{Do};

use crate::constants::Constants;
use crate::labels::Labels;
use crate::operand::insn_of;
use crate::size::behind;
use crate::stop::Stop;
use cb_asm_line::{CodeLine, Instruction};
use cb_insn::Code;
use std::alloc::Global;

/// The instructions of code, each with its place. `NoRecord` where what one names isn't there, or the code has more than
/// 65535 bytes. Takes time in the size of the code, times the logarithm of the number of constants and labels.
pub(crate) fn code_of<'a>(
    alloc: Global,
    constants: &Constants<'a>,
    labels: &Labels<'a>,
    lines: &'a [CodeLine],
) -> Result<Code, Stop>
    ensures { Makes (code_from constants.now (place_at labels.now) 0 lines.now) (AreInstructions labels.now lines.now) result }
{
    let mut code = Code::new(alloc);
    let mut pc = 0;
    for line in lines {
        pc = push_line(alloc, constants, labels, &mut code, pc, line)?;
    }
    Ok(code)
}

/// Adds the instruction of a line at a place, if it has one, and gives the place behind it.
fn push_line<'a>(
    alloc: Global,
    constants: &Constants<'a>,
    labels: &Labels<'a>,
    code: &mut Code,
    pc: u16,
    line: &'a CodeLine,
) -> Result<u16, Stop>
    ensures { MakesLine labels.now pc line.now (code.new ≡ code.old ++ code_from constants.now (place_at labels.now) pc (line.now ∷ [])) result }
{
    match line {
        CodeLine::Here(_) => Ok(pc),
        CodeLine::Do(instruction) => push_insn(alloc, constants, labels, code, pc, instruction),
    }
}

/// Adds an instruction at a place, and gives the place behind it.
fn push_insn<'a>(
    alloc: Global,
    constants: &Constants<'a>,
    labels: &Labels<'a>,
    code: &mut Code,
    pc: u16,
    instruction: &'a Instruction,
) -> Result<u16, Stop>
    ensures { MakesLine labels.now pc (Do instruction.now) (code.new ≡ code.old ++ code_from constants.now (place_at labels.now) pc (Do instruction.now ∷ [])) result }
{
    let next = behind(pc, instruction)?;
    let insn = insn_of(alloc, constants, labels, instruction)?;
    code.push((u32::from(pc), insn))?;
    Ok(next)
}
