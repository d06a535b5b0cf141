// Texts of records.
use cb_classfile::Pool;
use std::alloc::AllocError;

/// What is told of a text that isn't there.
const NO_TEXT: &[u16] = &[b'?' as u16];

/// Adds a text of a record, which has characters of ASCII alone.
fn push_text(out: &mut String, text: Option<&[u16]>) -> Result<(), AllocError> {
    for unit in text.unwrap_or(NO_TEXT) {
        out.push(char::from_u32(u32::from(*unit)).unwrap_or('?'))?;
    }
    Ok(())
}

/// Adds a blank and the name of the class at an index.
pub(crate) fn push_class_name(out: &mut String, pool: &Pool, index: u16) -> Result<(), AllocError> {
    out.push(' ')?;
    push_text(out, pool.class(index))
}

/// Adds the name and the descriptor of a member, with a blank in front of each.
pub(crate) fn push_member(
    out: &mut String,
    pool: &Pool,
    name: u16,
    descriptor: u16,
) -> Result<(), AllocError> {
    out.push(' ')?;
    push_text(out, pool.text(name))?;
    out.push(' ')?;
    push_text(out, pool.text(descriptor))
}
