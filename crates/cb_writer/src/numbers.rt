// The numbers of class files, which stand with their high bytes first (JVMS §4), at the end of the bytes so far.
ghost use Rattle.std.specs.Prelude.{◌≡◌, ◌++◌, ◌∷◌, [], OnOk};
ghost use Rattle.cb_classfile.specs.Tables.{u2, u4};

use cb_plain::OutOfMemory;

/// Writes a number of one byte.
pub(crate) fn push_u1(bytes: &mut Vec<u8>, number: u8) -> Result<(), OutOfMemory>
    ensures { OnOk result (bytes.new.items ≡ bytes.old.items ++ number ∷ []) }
{
    bytes.push(number)?;
    Ok(())
}

/// Writes a number of two bytes.
pub(crate) fn push_u2(bytes: &mut Vec<u8>, number: u16) -> Result<(), OutOfMemory>
    ensures { OnOk result (bytes.new.items ≡ bytes.old.items ++ u2 number) }
{
    bytes.extend_from_slice(&number.to_be_bytes())
}

/// Writes a number of four bytes.
pub(crate) fn push_u4(bytes: &mut Vec<u8>, number: u32) -> Result<(), OutOfMemory>
    ensures { OnOk result (bytes.new.items ≡ bytes.old.items ++ u4 number) }
{
    bytes.extend_from_slice(&number.to_be_bytes())
}

/// Writes three numbers of two bytes each.
pub(crate) fn push_triple(
    bytes: &mut Vec<u8>,
    one: u16,
    two: u16,
    three: u16,
) -> Result<(), OutOfMemory>
    ensures { OnOk result (bytes.new.items ≡ bytes.old.items ++ (u2 one ++ u2 two ++ u2 three)) }
{
    push_u2(bytes, one)?;
    push_u2(bytes, two)?;
    push_u2(bytes, three)
}
