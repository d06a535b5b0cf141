// The places of instructions.
ghost use Rattle.std.specs.Prelude.{◌↔◌, IsTrue};
ghost use Rattle.cb_insn.specs.Places.{HasPlace, Rise, places};

use crate::Code;
use crate::fit::has_place;

/// Whether an instruction of the code begins at a place. The instructions stand in the order of their places, as those
/// of code that some bytes spell do. Takes time in the logarithm of their number.
pub fn is_place(code: &Code, pc: u32) -> bool
    requires { Rise (places code.now) }
    ensures { IsTrue result ↔ HasPlace code.now pc }
{
    has_place(code.as_slice(), pc)
}
