// Attributes (JVMS §4.7).
ghost use Rattle.std.specs.Prelude.{◌∷◌, ◌++◌, [], ℕ, List};
ghost use Rattle.cb_classfile.specs.Attributes.{SpellsAttribute, SpellsAttributes, IsTold, TellsAttribute, TellsOfName};
ghost use Rattle.cb_classfile.specs.Reading.{Tells, TellsWhole};

use crate::ascii::has_text;
use crate::constants::Constants;
use crate::fault::Fault;
use crate::numbers::{block_at, u2_at};

/// How often attributes of a name stand in a table, and what the only one contains.
#[derive(Clone, Copy, Debug)]
pub(crate) enum Occurrence<'a> {
    /// None stands there.
    Never,
    /// One, with these contents.
    Once(&'a [u8]),
    /// More than one.
    Again,
}

/// How often attributes of a name stand in the table at the front, and what stands behind the table.
pub(crate) fn attributes_named<'a>(
    constants: &Constants<'_>,
    name: &[u8],
    bytes: &'a [u8],
) -> Result<(Occurrence<'a>, &'a [u8]), Fault>
    ensures { Tells (SpellsAttributes constants.now) (TellsOfName constants.now name.now) bytes.now result }
{
    let (count, mut rest) = u2_at(bytes)?;
    let mut occurrence = Occurrence::Never;
    for _ in 0..count {
        let ((index, contents), after) = attribute_at(constants, rest)?;
        if has_text(constants, index, name) {
            occurrence = one_more(occurrence, contents);
        }
        rest = after;
    }
    Ok((occurrence, rest))
}

/// How often attributes of a name stand in the table that the bytes are, as a whole.
pub(crate) fn all_attributes_named<'a>(
    constants: &Constants<'_>,
    name: &[u8],
    bytes: &'a [u8],
) -> Result<Occurrence<'a>, Fault>
    ensures { TellsWhole (SpellsAttributes constants.now) (TellsOfName constants.now name.now) bytes.now result }
{
    let (occurrence, rest) = attributes_named(constants, name, bytes)?;
    match rest {
        [] => Ok(occurrence),
        _ => Err(Fault::Malformed),
    }
}

/// What is told with one more attribute of the name.
fn one_more<'a>(occurrence: Occurrence<'a>, contents: &'a [u8]) -> Occurrence<'a>
    ensures { (before : List (List ℕ)) → IsTold occurrence.entry before → IsTold result (before ++ contents.now ∷ []) }
{
    match occurrence {
        Occurrence::Never => Occurrence::Once(contents),
        Occurrence::Once(_) | Occurrence::Again => Occurrence::Again,
    }
}

/// The index of the name of the attribute at the front, its contents, and what stands behind it.
fn attribute_at<'a>(
    constants: &Constants<'_>,
    bytes: &'a [u8],
) -> Result<((u16, &'a [u8]), &'a [u8]), Fault>
    ensures { Tells (SpellsAttribute constants.now) TellsAttribute bytes.now result }
{
    let (index, rest) = u2_at(bytes)?;
    let (contents, rest) = block_at(rest)?;
    if constants.text(index).is_none() {
        return Err(Fault::Malformed);
    }
    Ok(((index, contents), rest))
}
