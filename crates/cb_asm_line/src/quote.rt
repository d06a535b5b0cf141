// Texts as they are written, in quotes.
ghost use Rattle.std.specs.Prelude.{◌≡◌, ◌++◌, [], ◌∷◌, OnOk, string_bytes};
ghost use Rattle.std.specs.List.{flat_map};
ghost use Rattle.cb_asm_line.specs.Quoting.{quoted, quoted_unit};

use crate::name::{push_ascii, push_escape};
use std::alloc::AllocError as OutOfMemory;

/// Adds a text in quotes.
pub fn push_quoted(text: &mut String, units: &[u16]) -> Result<(), OutOfMemory>
    ensures { OnOk result (string_bytes text.new ≡ string_bytes text.old ++ quoted units.now) }
{
    push_ascii(text, b'"')?;
    push_units(text, units)?;
    push_ascii(text, b'"')
}

/// Adds the units between the quotes.
pub(crate) fn push_units(text: &mut String, units: &[u16]) -> Result<(), OutOfMemory>
    ensures { OnOk result (string_bytes text.new ≡ string_bytes text.old ++ flat_map quoted_unit units.now) }
{
    for unit in units {
        push_quoted_unit(text, *unit)?;
    }
    Ok(())
}

/// Adds a unit between them: a quote and a backslash with a backslash before it, and one that isn't in ASCII, or is no
/// character there, escaped.
fn push_quoted_unit(text: &mut String, unit: u16) -> Result<(), OutOfMemory>
    ensures { OnOk result (string_bytes text.new ≡ string_bytes text.old ++ quoted_unit unit) }
{
    if unit == u16::from(b'"') || unit == u16::from(b'\\') {
        push_ascii(text, b'\\')?;
        push_ascii(text, unit as u8)
    } else if 0x20 <= unit && unit <= 0x7E {
        push_ascii(text, unit as u8)
    } else {
        push_escape(text, unit)
    }
}
