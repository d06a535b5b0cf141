// The kinds that names and types have.
ghost use Rattle.std.specs.Prelude.{◌≡◌, IfOk, OnOk};
ghost use Rattle.std.specs.List.{flat_map};
ghost use Rattle.cb_kinds.specs.Descriptors.{types_of};
ghost use Rattle.cb_kinds.specs.Kinds.{array_of, kinds_of_name, kinds_of_type};
ghost use Rattle.cb_kinds.specs.Texts.{entered_all};

use crate::units::{BRACKET, CLASS, SEMICOLON, class_name, is_array};
use crate::{Sign, Texts, next_sign};
use cb_plain::OutOfMemory;
use std::alloc::Global;

/// Enters a kind by its name, and those of its components. `OutOfMemory` where no memory was to be had. Takes expected time in
/// the name's length, times the dimensions.
pub fn enter_kinds_of_name(kinds: &mut Texts, name: &[u16]) -> Result<(), OutOfMemory>
    ensures { OnOk result (kinds.new ≡ entered_all kinds.old (kinds_of_name name.now)) }
{
    if is_array(name) {
        enter_kinds_of_type(kinds, name)
    } else {
        kinds.enter(name)
    }
}

/// Enters the kind that a type is, and those of its components, if these are references. `OutOfMemory` where no memory was to
/// be had. Takes expected time in the type's length, times the dimensions.
pub fn enter_kinds_of_type(kinds: &mut Texts, text: &[u16]) -> Result<(), OutOfMemory>
    ensures { OnOk result (kinds.new ≡ entered_all kinds.old (kinds_of_type text.now)) }
{
    let mut rest = text;
    while let Some((unit, behind)) = rest.split_first() {
        if *unit == CLASS {
            return kinds.enter(class_name(behind));
        }
        if *unit != BRACKET {
            break;
        }
        kinds.enter(rest)?;
        rest = behind;
    }
    Ok(())
}

/// Enters the kinds of all types in a descriptor, in order. `OutOfMemory` where no memory was to be had. Takes expected time in
/// the descriptor's length, times the dimensions of its types.
pub fn enter_kinds_of_types(kinds: &mut Texts, descriptor: &[u16]) -> Result<(), OutOfMemory>
    ensures { OnOk result (kinds.new ≡ entered_all kinds.old (flat_map kinds_of_type (types_of descriptor.now))) }
{
    let mut rest = descriptor;
    while let Some((sign, behind)) = next_sign(rest) {
        if let Sign::ValueType(text) = sign {
            enter_kinds_of_type(kinds, text)?;
        }
        rest = behind;
    }
    Ok(())
}

/// The name of the array whose components are of a kind. `OutOfMemory` where no memory was to be had.
pub fn array_of(alloc: Global, name: &[u16]) -> Result<Vec<u16>, OutOfMemory>
    ensures { IfOk result (λ array. array.items ≡ array_of name.now) }
{
    let mut array = Vec::new(alloc);
    array.push(BRACKET)?;
    if is_array(name) {
        array.extend_from_slice(name)?;
    } else {
        array.push(CLASS)?;
        array.extend_from_slice(name)?;
        array.push(SEMICOLON)?;
    }
    Ok(array)
}
