// Whether a constant may stand behind those of a pool (JVMS §4.1, §4.4).
ghost use Rattle.std.specs.Prelude.{◌≡◌, ◌↔◌, ◌+◌, ◌≤◌, ◌++◌, length, IsTrue};
ghost use Rattle.cb_text.specs.Pool.{Fits, HasIndices, IsPool, with_gap};
ghost use Rattle.cb_text.specs.Reading.{HasBytes};

use crate::Constant;
use crate::constants::places_of;
use crate::indices::is_indexed;
use crate::text::short_length;

/// Whether the constants of a pool are those of one with this constant behind them. Takes time in the length of a
/// text, and constant time for any other constant.
pub(crate) fn is_admitted(constants: &[Constant], constant: &Constant) -> bool
    requires { IsPool constants.now }
    ensures { IsTrue result ↔ IsPool (constants.now ++ with_gap constant.now) }
{
    let next = constants.len() as u16 + 1;
    usize::from(next) + places_of(constant) <= 0xFFFF
        && fits(constant)
        && is_indexed_behind(constants, next, constant)
}

/// Whether the constant is no gap, and fits its bytes. Among the others only a text may not fit: that a number is in the
/// range of its type is said for the proof.
fn fits(constant: &Constant) -> bool
    ensures { IsTrue result ↔ (HasBytes constant.now × Fits constant.now) }
{
    match constant {
        Constant::Utf8(units) => short_length(units.as_slice()).is_some(),
        Constant::Integer(number) | Constant::Float(number) => *number <= u32::MAX,
        Constant::Long(number) | Constant::Double(number) => *number <= u64::MAX,
        Constant::Class(index) | Constant::String(index) | Constant::MethodType(index) => {
            *index <= u16::MAX
        }
        Constant::Fieldref(one, other)
        | Constant::Methodref(one, other)
        | Constant::InterfaceMethodref(one, other)
        | Constant::NameAndType(one, other)
        | Constant::InvokeDynamic(one, other) => (*one).max(*other) <= u16::MAX,
        Constant::MethodHandle(kind, reference) => *kind <= u8::MAX && *reference <= u16::MAX,
        Constant::Gap => false,
    }
}

/// Whether each index of a constant, which is to have the index behind those of the others, names an entry of the tag
/// that is asked for.
fn is_indexed_behind(constants: &[Constant], next: u16, constant: &Constant) -> bool
    requires { next ≡ length constants.now + 1 }
    ensures { IsTrue result ↔ HasIndices (constants.now ++ with_gap constant.now) constant.now }
{
    match constant {
        Constant::MethodHandle(kind, reference) => is_handle(*kind, *reference, next),
        _ => is_indexed(constants, constant),
    }
}

/// Whether the kind is that of a method handle, and its index at most the greatest: it may name itself.
fn is_handle(kind: u8, reference: u16, greatest: u16) -> bool
    ensures { IsTrue result ↔ ((1 ≤ kind) × (kind ≤ 9) × (1 ≤ reference) × (reference ≤ greatest)) }
{
    matches!(kind, 1..=9) && (1..=greatest).contains(&reference)
}
