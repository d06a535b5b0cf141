// The bytes of a constant (JVMS §4.4).
ghost use Rattle.std.specs.Prelude.{◌≡◌, ◌∷◌, ◌++◌, OnOk};
ghost use Rattle.std.specs.Int.{w32, w64, to_be_bytes};
ghost use Rattle.std.specs.List.{AllByRecursion, flat_map};
ghost use Rattle.cb_text.specs.Pool.{Fits, constant_bytes, u2};

use crate::text::{push_text, short_length};
use crate::{Constant, OutOfMemory};

/// Adds the bytes of the constants at the end. A refused growth may leave a part of them there. Takes time in the number
/// of bytes.
pub(crate) fn push_constants(out: &mut Vec<u8>, constants: &[Constant]) -> Result<(), OutOfMemory>
    requires { AllByRecursion Fits constants.now }
    ensures { OnOk result (out.new.items ≡ out.old.items ++ flat_map constant_bytes constants.now) }
{
    for constant in constants {
        push_constant(out, constant)?;
    }
    Ok(())
}

/// Adds the bytes of a constant at the end.
fn push_constant(out: &mut Vec<u8>, constant: &Constant) -> Result<(), OutOfMemory>
    requires { Fits constant.now }
    ensures { OnOk result (out.new.items ≡ out.old.items ++ constant_bytes constant.now) }
{
    match constant {
        Constant::Utf8(units) => {
            let Some(length) = short_length(units.as_slice()) else {
                unreachable!()
            };
            push_index(out, 1, length)?;
            push_text(out, units.as_slice())?;
        }
        Constant::Integer(number) => push_word(out, 3, *number)?,
        Constant::Float(bits) => push_word(out, 4, *bits)?,
        Constant::Long(number) => push_long(out, 5, *number)?,
        Constant::Double(bits) => push_long(out, 6, *bits)?,
        Constant::Class(name) => push_index(out, 7, *name)?,
        Constant::String(text) => push_index(out, 8, *text)?,
        Constant::Fieldref(holder, member) => push_pair(out, 9, *holder, *member)?,
        Constant::Methodref(holder, member) => push_pair(out, 10, *holder, *member)?,
        Constant::InterfaceMethodref(holder, member) => push_pair(out, 11, *holder, *member)?,
        Constant::NameAndType(name, descriptor) => push_pair(out, 12, *name, *descriptor)?,
        Constant::MethodHandle(kind, reference) => {
            out.push(15)?;
            push_index(out, *kind, *reference)?;
        }
        Constant::MethodType(descriptor) => push_index(out, 16, *descriptor)?,
        Constant::InvokeDynamic(bootstrap, member) => push_pair(out, 18, *bootstrap, *member)?,
        Constant::Gap => {}
    }
    Ok(())
}

/// Adds a byte, and an index behind it.
fn push_index(out: &mut Vec<u8>, front: u8, index: u16) -> Result<(), OutOfMemory>
    ensures { OnOk result (out.new.items ≡ out.old.items ++ front ∷ u2 index) }
{
    out.push(front)?;
    out.extend_from_slice(&index.to_be_bytes())
}

/// Adds a tag and two indices.
fn push_pair(out: &mut Vec<u8>, tag: u8, one: u16, other: u16) -> Result<(), OutOfMemory>
    ensures { OnOk result (out.new.items ≡ out.old.items ++ tag ∷ u2 one ++ u2 other) }
{
    push_index(out, tag, one)?;
    out.extend_from_slice(&other.to_be_bytes())
}

/// Adds a tag and a number of four bytes.
fn push_word(out: &mut Vec<u8>, tag: u8, number: u32) -> Result<(), OutOfMemory>
    ensures { OnOk result (out.new.items ≡ out.old.items ++ tag ∷ to_be_bytes w32 number) }
{
    out.push(tag)?;
    out.extend_from_slice(&number.to_be_bytes())
}

/// Adds a tag and a number of eight bytes.
fn push_long(out: &mut Vec<u8>, tag: u8, number: u64) -> Result<(), OutOfMemory>
    ensures { OnOk result (out.new.items ≡ out.old.items ++ tag ∷ to_be_bytes w64 number) }
{
    out.push(tag)?;
    out.extend_from_slice(&number.to_be_bytes())
}
