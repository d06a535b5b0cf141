// Bytes behind their number, which is written when they are (JVMS §4.7).
ghost use Rattle.std.specs.Prelude.{◌≡◌, ◌-◌, ◌^◌, ◌<◌, ◌≤◌, ◌++◌, length, take, drop, IfOk};
ghost use Rattle.cb_classfile.specs.Attributes.{least_index};
ghost use Rattle.cb_classfile.specs.Tables.{block_bytes, u2, u4};
ghost use Rattle.cb_writer.specs.Names.{name_of};

use crate::attribute_names::{Attribute, AttributeNames};
use crate::numbers::{push_u2, push_u4};
use cb_plain::OutOfMemory;

/// Makes room for the number of a block, and gives the place behind it, where the block begins.
pub(crate) fn begin_block(bytes: &mut Vec<u8>) -> Result<usize, OutOfMemory>
    ensures { IfOk result (λ begin. (bytes.new.items ≡ bytes.old.items ++ u4 0) × (begin ≡ length bytes.new.items)) }
{
    push_u4(bytes, 0)?;
    Ok(bytes.len())
}

/// Writes the number of a block that begins at a place and is at the end. Takes constant time.
pub(crate) fn end_block(bytes: &mut Vec<u8>, begin: usize)
    requires room { 4 ≤ begin }
    requires begun { begin ≤ length bytes.old.items }
    requires short { length (drop begin bytes.old.items) < 2 ^ 32 }
    ensures { bytes.new.items ≡ take (begin - 4) bytes.old.items ++ block_bytes (drop begin bytes.old.items) }
{
    let length = (bytes.len() - begin) as u32;
    bytes[begin - 4..begin].copy_from_slice(&length.to_be_bytes());
}

/// Writes what stands before the contents of the only attribute of a table, and gives the place where they begin.
pub(crate) fn begin_only_attribute(
    names: &AttributeNames<'_>,
    bytes: &mut Vec<u8>,
    attribute: Attribute,
) -> Result<usize, OutOfMemory>
    ensures { IfOk result (λ begin. (bytes.new.items
        ≡ bytes.old.items ++ u2 1 ++ u2 (least_index names.now (name_of attribute)) ++ u4 0)
        × (begin ≡ length bytes.new.items)) }
{
    push_u2(bytes, 1)?;
    push_u2(bytes, names.index(attribute))?;
    begin_block(bytes)
}
