// Modified UTF-8 (JVMS §4.4.7).
ghost use Rattle.std.specs.Prelude.{◌≡◌, ◌≢◌, ◌↔◌, ◌++◌, ◌^◌, ◌<◌, ℕ, List, length, IfOk, IfSome, IsErrOf, IsNone, MatchResult, OnOk, Some};
ghost use Rattle.cb_text.specs.Messages.{text_fault_text};
ghost use Rattle.cb_text.specs.Text.{AreUnits, text_bytes};
ghost use Rattle.cb_text.specs.declared.text.TextFault.TheVariants.{OutOfMemory as MemoryFault};

use crate::unit::{push_unit, spelled_length, unit_at};
use crate::{OutOfMemory, Units};
use std::alloc::{AllocError, AllocFailed, Global};
use std::error::Error;
use std::fmt;

/// Why bytes gave no text.
#[derive(Clone, Copy, Debug, PartialEq, Eq)]
pub enum TextFault {
    /// The bytes are no modified UTF-8.
    BadText,
    /// No memory was to be had.
    OutOfMemory,
}

impl fmt::Display for TextFault {
    ghost output = { λ fault. Some (text_fault_text fault) };

    fn fmt<W: fmt::Write>(&self, f: &mut fmt::Formatter<W>) -> fmt::Result {
        f.write_str(match self {
            TextFault::BadText => "not modified UTF-8",
            TextFault::OutOfMemory => "out of memory",
        })
    }
}

impl Error for TextFault {}

impl From<AllocError> for TextFault {
    ghost from_gives = { λ _ fault. fault ≡ MemoryFault };

    fn from(_: AllocError) -> Self {
        TextFault::OutOfMemory
    }
}

impl<T: Drop> From<AllocFailed<T>> for TextFault {
    ghost from_gives = { λ _ fault. fault ≡ MemoryFault };

    fn from(_: AllocFailed<T>) -> Self {
        TextFault::OutOfMemory
    }
}

/// The UTF-16 units that the bytes spell in modified UTF-8 (JVMS §4.4.7): units 0x0001 to 0x007F stand in one byte,
/// 0 and 0x0080 to 0x07FF in two, all others in three. A unit is spelled alone, so a pair of surrogates is two.
/// `BadText` where no units have these bytes, `OutOfMemory` where no memory was to be had: the room is taken once, of
/// as many units as there are bytes. Takes time in the number of bytes.
pub fn decode_modified(alloc: Global, bytes: &[u8]) -> Result<Units, TextFault>
    ensures units { IfOk result (λ units. AreUnits units × (bytes.now ≡ text_bytes units)) }
    ensures exact { (units : List ℕ) → AreUnits units → bytes.now ≡ text_bytes units
        → MatchResult result (λ found. found ≡ units) (λ fault. fault ≡ TextFault.OutOfMemory) }
    ensures bad { IsErrOf result TextFault.BadText ↔ ((¬ IsErrOf result TextFault.OutOfMemory)
        × ((units : List ℕ) → AreUnits units → bytes.now ≢ text_bytes units)) }
{
    let mut units = Vec::with_capacity(alloc, bytes.len())?;
    let mut rest = bytes;
    while !rest.is_empty() {
        let Some((unit, after)) = unit_at(rest) else {
            return Err(TextFault::BadText);
        };
        units.push_reserved(unit);
        rest = after;
    }
    Ok(Units::of(units))
}

/// The spelling of the units in modified UTF-8 (JVMS §4.4.7), which `decode_modified` reads back. `OutOfMemory`
/// where no memory was to be had. Takes time in the number of units.
pub fn encode_modified(alloc: Global, units: &[u16]) -> Result<Vec<u8>, OutOfMemory>
    ensures spelled { IfOk result (λ bytes. bytes.items ≡ text_bytes units.now) }
    ensures read_back { IfOk result (λ bytes. (other : List ℕ) → AreUnits other
        → bytes.items ≡ text_bytes other → other ≡ units.now) }
{
    let mut bytes = Vec::new(alloc);
    push_text(&mut bytes, units)?;
    Ok(bytes)
}

/// Adds the spelling of the units at the end. A refused growth may leave a part of it there. Takes time in their number.
pub(crate) fn push_text(out: &mut Vec<u8>, units: &[u16]) -> Result<(), OutOfMemory>
    ensures { OnOk result (out.new.items ≡ out.old.items ++ text_bytes units.now) }
{
    for unit in units {
        push_unit(out, *unit)?;
    }
    Ok(())
}

/// No two texts have one spelling, so what `encode_modified` gives is read back as the same units.
pub fn one_spelling()
    ensures { (one other : List ℕ) → AreUnits one → AreUnits other → text_bytes one ≡ text_bytes other → one ≡ other }
{}

/// How many bytes the spelling of the units has, or `None` where it has 65536 or more. Takes time in the number of units.
pub(crate) fn short_length(units: &[u16]) -> Option<u16>
    ensures short { IfSome result (λ size. AreUnits units.now × (size ≡ length (text_bytes units.now))) }
    ensures none { IsNone result → ¬ (length (text_bytes units.now) < 2 ^ 16) }
{
    let mut size: u16 = 0;
    for unit in units {
        size = size.checked_add(spelled_length(*unit))?;
    }
    Some(size)
}
