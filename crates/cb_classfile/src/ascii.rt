// Texts of the pool that rules name, all of which are ASCII.
ghost use Rattle.std.specs.Prelude.{◌≡◌, ◌↔◌, IsTrue, Some, nat_eq};
ghost use Rattle.std.specs.Cmp.Lexicographic.{pointwise};
ghost use Rattle.cb_classfile.specs.Attributes.{is_text};
ghost use Rattle.cb_classfile.specs.Pool.{text_at};

use crate::constants::Constants;

/// Whether an index names this ASCII text.
pub(crate) fn has_text(constants: &Constants<'_>, index: u16, text: &[u8]) -> bool
    ensures tells { result ≡ is_text text.now (text_at constants.now index) }
    ensures same { IsTrue result ↔ (text_at constants.now index ≡ Some text.now) }
{
    match constants.text(index) {
        Some(units) => is_spelled(units, text),
        None => false,
    }
}

/// Whether units are those of an ASCII text.
pub(crate) fn is_spelled(units: &[u16], text: &[u8]) -> bool
    ensures { result ≡ pointwise nat_eq units.now text.now }
{
    let mut left = units;
    let mut right = text;
    while let ([unit, units @ ..], [byte, text @ ..]) = (left, right) {
        if *unit != u16::from(*byte) {
            return false;
        }
        left = units;
        right = text;
    }
    left.is_empty() && right.is_empty()
}
