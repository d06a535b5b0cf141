// The indices by which constants name others (JVMS §4.4).
ghost use Rattle.std.specs.Prelude.{◌≡◌, ◌↔◌, IsTrue, IsSome, option_copied};
ghost use Rattle.std.specs.List.{AllByRecursion};
ghost use Rattle.cb_text.specs.Pool.{HasIndices, IsClass, IsMember, IsText, Names, constant_at};

use crate::Constant;

/// Whether each index of each constant names an entry of the tag that is asked for. Takes time in the number of
/// constants.
pub(crate) fn are_indexed(constants: &[Constant]) -> bool
    ensures { IsTrue result ↔ AllByRecursion (HasIndices constants.now) constants.now }
{
    for constant in constants {
        if !is_indexed(constants, constant) {
            return false;
        }
    }
    true
}

/// The constant at an index, which count from 1, in constant time.
pub(crate) fn entry_at(constants: &[Constant], index: u16) -> Option<&Constant>
    ensures { option_copied result ≡ constant_at constants.now index }
{
    let place = index.checked_sub(1)?;
    constants.get(usize::from(place))
}

/// Whether each index of the constant names an entry of the tag that is asked for. Takes constant time.
pub(crate) fn is_indexed(constants: &[Constant], constant: &Constant) -> bool
    ensures { IsTrue result ↔ HasIndices constants.now constant.now }
{
    match constant {
        Constant::Class(text) | Constant::String(text) | Constant::MethodType(text) => {
            names_text(constants, *text)
        }
        Constant::Fieldref(holder, member)
        | Constant::Methodref(holder, member)
        | Constant::InterfaceMethodref(holder, member) => {
            names_class(constants, *holder) && names_member(constants, *member)
        }
        Constant::NameAndType(name, descriptor) => {
            names_text(constants, *name) && names_text(constants, *descriptor)
        }
        Constant::MethodHandle(kind, reference) => {
            matches!(*kind, 1..=9) && entry_at(constants, *reference).is_some()
        }
        Constant::InvokeDynamic(_, member) => names_member(constants, *member),
        _ => true,
    }
}

/// Whether the index names a text.
fn names_text(constants: &[Constant], index: u16) -> bool
    ensures { IsTrue result ↔ Names constants.now index IsText }
{
    matches!(entry_at(constants, index), Some(Constant::Utf8(_)))
}

/// Whether the index names a class.
fn names_class(constants: &[Constant], index: u16) -> bool
    ensures { IsTrue result ↔ Names constants.now index IsClass }
{
    matches!(entry_at(constants, index), Some(Constant::Class(_)))
}

/// Whether the index names a name and type.
fn names_member(constants: &[Constant], index: u16) -> bool
    ensures { IsTrue result ↔ Names constants.now index IsMember }
{
    matches!(entry_at(constants, index), Some(Constant::NameAndType(..)))
}
