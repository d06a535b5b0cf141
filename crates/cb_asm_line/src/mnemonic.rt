// The names of instructions.
ghost use Rattle.std.specs.Prelude.{◌≡◌, ◌≢◌, ◌↔◌, ◌≤◌, ℕ, length, map, IsTrue, MatchOption, None, Some, option_map, slice_get};
ghost use Rattle.cb_asm_line.specs.Mnemonics.{array_types, mnemonics};
ghost use Rattle.cb_asm_line.specs.Operands.{array_type};

use crate::mnemonic_table::MNEMONICS;
use cb_classfile::array_code;

/// The name of the instruction of an opcode, if there is one.
pub fn name_of(opcode: u8) -> Option<&'static str>
    ensures { option_map (λ name. name.now) result ≡ slice_get mnemonics opcode }
{
    name_in(&MNEMONICS, opcode)
}

/// The name at a place of a table.
fn name_in(names: &[&'static str; 202], place: u8) -> Option<&'static str>
    ensures { option_map (λ name. name.now) result ≡ slice_get (map (λ name. name.now) names.now) place }
{
    match names.get(usize::from(place)) {
        Some(name) => Some(*name),
        None => None,
    }
}

/// The opcode of the instruction of a name, if there is one.
pub fn opcode_of(name: &[u8]) -> Option<u8>
    ensures { MatchOption result ((opcode : ℕ) → slice_get mnemonics opcode ≢ Some name.now)
        (λ opcode. slice_get mnemonics opcode ≡ Some name.now) }
{
    place_in(MNEMONICS.as_slice(), name)
}

/// The code of the primitive type of a name, if there is one (JVMS table 6.5.newarray-A).
pub(crate) fn array_code_of(name: &[u8]) -> Option<u8>
    ensures { MatchOption result ((code : ℕ) → 4 ≤ code → code ≤ 11 → name.now ≢ array_type code)
        (λ code. (4 ≤ code) × (code ≤ 11) × (name.now ≡ array_type code)) }
{
    match array_place(name) {
        Some(place) if place < 8 => Some(array_code::BOOLEAN + place),
        Some(_) => None,
        None => None,
    }
}

/// The place of a primitive type among those that `newarray` makes arrays of.
fn array_place(name: &[u8]) -> Option<u8>
    ensures { MatchOption result ((place : ℕ) → slice_get array_types place ≢ Some name.now)
        (λ place. slice_get array_types place ≡ Some name.now) }
{
    place_in(ARRAY_TYPES.as_slice(), name)
}

/// The primitive types, in the order of their codes.
static ARRAY_TYPES: [&str; 8] = [
    "boolean", "char", "float", "double", "byte", "short", "int", "long",
];

/// The first place of a name in a table.
fn place_in(names: &[&'static str], name: &[u8]) -> Option<u8>
    requires { length names.now ≤ 256 }
    ensures { MatchOption result ((place : ℕ) → slice_get (map (λ name. name.now) names.now) place ≢ Some name.now)
        (λ place. slice_get (map (λ name. name.now) names.now) place ≡ Some name.now) }
{
    for (place, other) in names.iter().enumerate() {
        if is_same(other, name) {
            return Some(place as u8);
        }
    }
    None
}

/// Whether a text has these bytes.
pub(crate) fn is_same(text: &str, bytes: &[u8]) -> bool
    ensures { IsTrue result ↔ (text.now ≡ bytes.now) }
{
    text.as_bytes() == bytes
}
