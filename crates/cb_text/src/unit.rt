// A UTF-16 unit in modified UTF-8 (JVMS §4.4.7).
ghost use Rattle.std.specs.Prelude.{◌≡◌, ◌<◌, ◌≤◌, ◌∷◌, ◌++◌, ℕ, List, length, OnOk};
ghost use Rattle.cb_text.specs.Fronts.{Reads};
ghost use Rattle.cb_text.specs.Reading.{SpellsUnit};
ghost use Rattle.cb_text.specs.Text.{unit_bytes};

use crate::OutOfMemory;

/// The unit at the front of the bytes, and what stands behind it, or `None` where no unit's spelling is a front of
/// them.
pub(crate) fn unit_at(bytes: &[u8]) -> Option<(u16, &[u8])>
    ensures { Reads SpellsUnit bytes.now result }
{
    match bytes {
        [unit @ 1..=0x7F, rest @ ..] => Some((u16::from(*unit), rest)),
        _ => long_unit_at(bytes),
    }
}

/// The unit of two or three bytes at the front, and what stands behind it.
fn long_unit_at(bytes: &[u8]) -> Option<(u16, &[u8])>
    requires { (byte : ℕ) (rest : List ℕ) → bytes.now ≡ byte ∷ rest → ¬ ((1 ≤ byte) × (byte < 0x80)) }
    ensures { Reads SpellsUnit bytes.now result }
{
    match bytes {
        [high @ 0xC0..=0xDF, low @ 0x80..=0xBF, rest @ ..] => {
            let unit = u16::from(*high - 0xC0) * 0x40 + u16::from(*low - 0x80);
            if unit == 0 || unit >= 0x80 {
                Some((unit, rest))
            } else {
                None
            }
        }
        [
            high @ 0xE0..=0xEF,
            middle @ 0x80..=0xBF,
            low @ 0x80..=0xBF,
            rest @ ..,
        ] => {
            let unit = u16::from(*high - 0xE0) * 0x1000
                + u16::from(*middle - 0x80) * 0x40
                + u16::from(*low - 0x80);
            if unit >= 0x800 {
                Some((unit, rest))
            } else {
                None
            }
        }
        _ => None,
    }
}

/// Adds the spelling of a unit at the end.
pub(crate) fn push_unit(out: &mut Vec<u8>, unit: u16) -> Result<(), OutOfMemory>
    ensures { OnOk result (out.new.items ≡ out.old.items ++ unit_bytes unit) }
{
    let low = 0x80 + (unit % 0x40) as u8;
    let middle = 0x80 + (unit / 0x40 % 0x40) as u8;
    match unit {
        1..=0x7F => out.push(unit as u8)?,
        0..=0x7FF => out.extend_from_slice(&[0xC0 + (unit / 0x40) as u8, low])?,
        _ => out.extend_from_slice(&[0xE0 + (unit / 0x1000) as u8, middle, low])?,
    }
    Ok(())
}

/// How many bytes the spelling of a unit has.
pub(crate) fn spelled_length(unit: u16) -> u16
    ensures { result ≡ length (unit_bytes unit) }
{
    match unit {
        1..=0x7F => 1,
        0..=0x7FF => 2,
        _ => 3,
    }
}
