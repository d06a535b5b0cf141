// The parameters of a method descriptor (JVMS §4.3.3).
ghost use Rattle.std.specs.Prelude.{◌≡◌, ◌≤◌, ℕ, List, IfOk, MatchOption, map};
ghost use Rattle.cb_names.specs.FirstFloating.{first_floating};
ghost use Rattle.cb_names.specs.Fronts.{BeginsWithParameters};
ghost use Rattle.cb_names.specs.Types.{JavaType, parameters_words, type_of};

use crate::floating::Floating;
use crate::front::behind_field_type;
use crate::signs::RIGHT_PARENTHESIS;
use crate::types::FieldType;
use crate::unit::behind_unit;
use std::alloc::{AllocError, Global};

/// How many words the parameters at the front take, the first floating-point type that they name, and what stands behind
/// them and the `)`, or `None` where there are none or they take more than 255 words.
pub(crate) fn behind_parameters(text: &[u16]) -> Option<(u8, Option<Floating>, &[u16])>
    ensures { MatchOption result
        ((types : List JavaType) (rest : List ℕ) → BeginsWithParameters text.now types rest
        → parameters_words types ≤ 255 → ⊥)
        (λ read. (types : List JavaType) × BeginsWithParameters text.now types read.2.now
        × (read.0 ≡ parameters_words types) × (parameters_words types ≤ 255) × (read.1 ≡ first_floating types)) }
{
    let mut words: u8 = 0;
    let mut floating = None;
    let mut rest = text;
    while let Some((parameter, after)) = behind_field_type(rest) {
        words = words.checked_add(parameter.words())?;
        floating = floating.or(parameter.floating());
        rest = after;
    }
    Some((words, floating, behind_unit(rest, RIGHT_PARENTHESIS)?))
}

/// The types of the parameters at the front, and what stands behind them and the `)`, or `None` where there are none or
/// they take more than 255 words.
pub(crate) fn parameters_at(
    alloc: Global,
    text: &[u16],
) -> Result<Option<(Vec<FieldType<'_>>, &[u16])>, AllocError>
    ensures { IfOk result (λ found. MatchOption found
        ((types : List JavaType) (rest : List ℕ) → BeginsWithParameters text.now types rest
        → parameters_words types ≤ 255 → ⊥)
        (λ read. BeginsWithParameters text.now (map type_of read.0.items) read.1.now
        × (parameters_words (map type_of read.0.items) ≤ 255))) }
{
    let mut parameters = Vec::new(alloc);
    let mut words: u8 = 0;
    let mut rest = text;
    while let Some((parameter, after)) = behind_field_type(rest) {
        let Some(more) = words.checked_add(parameter.words()) else {
            return Ok(None);
        };
        parameters.push(parameter)?;
        words = more;
        rest = after;
    }
    match behind_unit(rest, RIGHT_PARENTHESIS) {
        Some(returned) => Ok(Some((parameters, returned))),
        None => Ok(None),
    }
}
