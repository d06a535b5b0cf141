// The attribute Code (JVMS §4.7.3).
ghost use Rattle.std.specs.Prelude.{◌≡◌, ◌++◌, ◌^◌, ◌<◌, ℕ, List, OnOk, length};
ghost use Rattle.cb_insn.specs.Grammar.{SpellsCode};
ghost use Rattle.cb_insn.specs.Writing.{code_bytes};
ghost use Rattle.cb_classfile.specs.Code.{SpellsBody, SpellsFramesIn, body_bytes, frames_in_bytes};
ghost use Rattle.cb_classfile.specs.Tables.{block_bytes};
ghost use Rattle.cb_writer.specs.Formed.{HasSpelling};

use crate::attribute_names::{Attribute, AttributeNames};
use crate::block::{begin_block, begin_only_attribute, end_block};
use crate::entry::push_table;
use crate::numbers::push_u2;
use cb_classfile::{Body, Code, MapFrame};
use cb_insn::encode_into;
use cb_plain::OutOfMemory;

/// Writes the contents of an attribute Code.
pub(crate) fn push_body(
    names: &AttributeNames<'_>,
    bytes: &mut Vec<u8>,
    body: &Body,
) -> Result<(), OutOfMemory>
    requires { HasSpelling (SpellsBody names.now) body.now }
    ensures { OnOk result (bytes.new.items ≡ bytes.old.items ++ body_bytes names.now body.now) }
{
    push_u2(bytes, body.max_stack)?;
    push_u2(bytes, body.max_locals)?;
    push_code_block(bytes, &body.code)?;
    push_table(names, bytes, body.handlers.as_slice())?;
    push_frames(names, bytes, body.frames.as_slice())
}

/// Writes code behind its length.
fn push_code_block(bytes: &mut Vec<u8>, code: &Code) -> Result<(), OutOfMemory>
    requires { (spelled : List ℕ) × SpellsCode code.now spelled }
    ensures { OnOk result (bytes.new.items ≡ bytes.old.items ++ block_bytes (code_bytes code.now)) }
{
    let begin = begin_block(bytes)?;
    encode_into(bytes, code)?;
    end_block(bytes, begin);
    Ok(())
}

/// Writes the attributes of a body: frames, where there are any.
fn push_frames(
    names: &AttributeNames<'_>,
    bytes: &mut Vec<u8>,
    frames: &[MapFrame],
) -> Result<(), OutOfMemory>
    requires { HasSpelling (SpellsFramesIn names.now) frames.now }
    ensures { OnOk result (bytes.new.items ≡ bytes.old.items ++ frames_in_bytes names.now frames.now) }
{
    if frames.is_empty() {
        return push_u2(bytes, 0);
    }
    let begin = begin_only_attribute(names, bytes, Attribute::StackMapTable)?;
    push_table(names, bytes, frames)?;
    end_block(bytes, begin);
    Ok(())
}
