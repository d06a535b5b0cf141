// The names of arrays that instructions make.
ghost use Rattle.std.specs.Prelude.{◌≡◌, [], ◌∷◌, IfOk, MatchOption, take};
ghost use Rattle.cb_kinds.specs.Kinds.{kinds_of_type};
ghost use Rattle.cb_link.specs.Making.{base_array, letter_of_code};

use crate::units::units_of;
use cb_classfile::array_code;
use cb_kinds::class_name;
use cb_plain::{List, OutOfMemory};
use cb_text::Units;
use std::alloc::Global;

/// `[`, one of which stands for each dimension (JVMS §4.3.2).
const BRACKET: u16 = b'[' as u16;

/// `L`, behind which the name of a class stands.
const CLASS: u16 = b'L' as u16;

/// The letter of the base type of a code (JVMS table 6.5.newarray-A).
fn letter_of_code(code: u8) -> u16
    ensures { result ≡ letter_of_code code }
{
    if code == array_code::BOOLEAN {
        b'Z' as u16
    } else if code == array_code::CHAR {
        b'C' as u16
    } else if code == array_code::FLOAT {
        b'F' as u16
    } else if code == array_code::DOUBLE {
        b'D' as u16
    } else if code == array_code::BYTE {
        b'B' as u16
    } else if code == array_code::SHORT {
        b'S' as u16
    } else if code == array_code::LONG {
        b'J' as u16
    } else {
        b'I' as u16
    }
}

/// The name of the array of the base type of a code.
pub(crate) fn base_array(alloc: Global, code: u8) -> Result<Units, OutOfMemory>
    ensures { IfOk result (λ name. name ≡ base_array code) }
{
    let mut name = Units::with_capacity(alloc, 2)?;
    name.push(BRACKET)?;
    name.push(letter_of_code(code))?;
    Ok(name)
}

/// The kinds that a type is and that its components are, but no more than so many. Takes time in the type's length, times their
/// number.
pub(crate) fn first_kinds(alloc: Global, text: &[u16], most: u8) -> Result<List<Units>, OutOfMemory>
    ensures { IfOk result (λ names. names ≡ take most (kinds_of_type text.now)) }
{
    let mut names = List::new(alloc);
    let mut rest = text;
    for _ in 0..most {
        let Some((kind, components)) = first_kind(rest) else {
            return Ok(names);
        };
        names.push(units_of(alloc, kind)?)?;
        rest = components;
    }
    Ok(names)
}

/// The kind that a type is, if it is a reference, and what its components are.
fn first_kind(text: &[u16]) -> Option<(&[u16], &[u16])>
    ensures { MatchOption result (kinds_of_type text.now ≡ [])
        (λ found. kinds_of_type text.now ≡ found.0.now ∷ kinds_of_type found.1.now) }
{
    let (unit, rest) = text.split_first()?;
    if *unit == BRACKET {
        Some((text, rest))
    } else if *unit == CLASS {
        Some((class_name(rest), &[]))
    } else {
        None
    }
}
