// The exception table (JVMS §4.7.3).
ghost use Rattle.std.specs.Prelude.{◌≡◌, ◌↔◌, IsTrue};
ghost use Rattle.std.specs.List.{AllByRecursion};
ghost use Rattle.cb_insn.specs.Places.{Rise, places};
ghost use Rattle.cb_classfile.specs.Code.{IsPlaced};

use crate::constants::Constants;
use crate::fault::Fault;
use crate::numbers::pair_at;
use crate::table::Entry;
use cb_insn::{Code, is_place};
use cb_plain::List;
use std::alloc::Global;

/// An entry of the exception table (JVMS §4.7.3). Places are counted from the start of the code.
#[derive(Clone, Copy, Debug, PartialEq, Eq)]
pub struct Handler {
    /// The place of the first instruction that it covers.
    pub start: u16,
    /// The place behind the last one, which may be the length of the code.
    pub end: u16,
    /// The place of the handler's first instruction.
    pub handler: u16,
    /// The index of the class that it catches, or 0 where it catches all.
    pub catch_type: u16,
}

/// The exception table of a method.
pub type Handlers = List<Handler>;

impl Entry for Handler {
    ghost use Rattle.cb_classfile.specs.Code.{SpellsHandler};

    ghost spells = { SpellsHandler };

    fn read<'a>(
        _: Global,
        constants: &Constants<'_>,
        bytes: &'a [u8],
    ) -> Result<(Handler, &'a [u8]), Fault> {
        let ((start, end), rest) = pair_at(bytes)?;
        let ((handler, catch_type), rest) = pair_at(rest)?;
        if catch_type != 0 && constants.class(catch_type).is_none() {
            return Err(Fault::Malformed);
        }
        let entry = Handler {
            start,
            end,
            handler,
            catch_type,
        };
        Ok((entry, rest))
    }
}

/// Whether each entry covers an instruction at least, and its places are those of instructions, or the end that of code
/// of this size (JVMS §4.7.3). Takes time in the number of entries, times the logarithm of that of the instructions.
pub fn are_placed(code: &Code, size: usize, handlers: &[Handler]) -> bool
    requires { Rise (places code.now) }
    ensures { IsTrue result ↔ AllByRecursion (IsPlaced code.now size) handlers.now }
{
    handlers.iter().all(|entry| is_placed(code, size, *entry))
}

/// Whether those of an entry are.
fn is_placed(code: &Code, size: usize, entry: Handler) -> bool
    requires { Rise (places code.now) }
    ensures { IsTrue result ↔ IsPlaced code.now size entry }
{
    entry.start < entry.end
        && is_place(code, u32::from(entry.start))
        && is_place(code, u32::from(entry.handler))
        && (usize::from(entry.end) == size || is_place(code, u32::from(entry.end)))
}
