// The first line of a text that is outside the format.
ghost use Rattle.std.specs.Prelude.{◌≡◌, ◌<◌, ℕ, length, IfOk, map, take};
ghost use Rattle.cb_asm.specs.BadLines.{IsFirstBadLine};
ghost use Rattle.cb_asm.specs.Inner.{AreEnds, IsProgramText};

use crate::closing::can_stand;
use cb_asm_line::first_line;
use cb_asm_prefix::fronts_close;
use cb_plain::OutOfMemory;
use std::alloc::Global;

/// The first line that is outside the format of a text that is no program's. It is found by halving.
pub(crate) fn bad_line(alloc: Global, text: &[u8]) -> Result<usize, OutOfMemory>
    requires { ¬ IsProgramText text.now }
    ensures { IfOk result (IsFirstBadLine text.now) }
{
    fronts_close();
    let ends = line_ends(alloc, text)?;
    let ends = ends.as_slice();
    // So many lines can stand, and one more than so many can't.
    let mut stand = 0;
    let mut fall = ends.len();
    'halves: while stand < fall {
        let middle = stand + (fall - stand) / 2;
        if can_stand(alloc, &text[..ends[middle]])? {
            stand = middle + 1;
        } else {
            fall = middle;
        }
    }
    Ok(stand + 1)
}

/// The place behind each newline of a text.
fn line_ends(alloc: Global, text: &[u8]) -> Result<Vec<usize>, OutOfMemory>
    ensures { IfOk result (λ ends. AreEnds text.now ends.items) }
{
    let mut ends = Vec::new(alloc);
    let mut rest = text;
    'lines: while let Some((_, behind)) = first_line(rest) {
        ends.push(text.len() - behind.len())?;
        rest = behind;
    }
    Ok(ends)
}
