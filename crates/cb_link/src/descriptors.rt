// What the parameters and results of methods are.
ghost use Rattle.std.specs.Prelude.{◌≡◌, ◌∷◌, map, option_map, IfOk, None};
ghost use Rattle.cb_classfile.specs.Pool.{text_at};
ghost use Rattle.cb_kinds.specs.Basics.{basic_of};
ghost use Rattle.cb_kinds.specs.Descriptors.{behind, parameters_of, result_of, signs};
ghost use Rattle.cb_link.specs.Numbers.{or_none};

use crate::Basics;
use cb_kinds::{Basic, Sign, Texts, basic_of, next_sign};
use cb_plain::OutOfMemory;
use cb_text::Pool;
use std::alloc::Global;

/// The text at an index, or none.
pub(crate) fn text_or_none(pool: &Pool, index: u16) -> &[u16]
    ensures { result.now ≡ or_none (text_at pool.now index) }
{
    match pool.text(index) {
        Some(text) => text,
        None => &[],
    }
}

/// What the parameters in a method's descriptor are, in order. `OutOfMemory` where no memory was to be had. Takes expected time
/// in the descriptor's length.
pub(crate) fn parameters_of(
    alloc: Global,
    kinds: &Texts,
    descriptor: &[u16],
) -> Result<Basics, OutOfMemory>
    ensures { IfOk result (λ parameters. parameters ≡ map (basic_of kinds.now) (parameters_of descriptor.now)) }
{
    let mut parameters = Basics::new(alloc);
    let mut rest = descriptor;
    while let Some((Sign::ValueType(text), behind)) = next_sign(rest) {
        parameters.push(basic_of(kinds, text))?;
        rest = behind;
    }
    Ok(parameters)
}

/// What a method's descriptor says that it gives, if it gives anything. Takes expected time in the descriptor's length.
pub(crate) fn result_of(kinds: &Texts, descriptor: &[u16]) -> Option<Basic>
    ensures { result ≡ option_map (basic_of kinds.now) (result_of descriptor.now) }
{
    let mut rest = descriptor;
    while let Some((sign, behind)) = next_sign(rest) {
        if let Sign::Parenthesis = sign {
            return first_of(kinds, behind);
        }
        rest = behind;
    }
    None
}

/// What the first type behind a parenthesis is, if a type stands there.
fn first_of(kinds: &Texts, text: &[u16]) -> Option<Basic>
    ensures { result ≡ option_map (basic_of kinds.now) (behind (None ∷ signs text.now)) }
{
    match next_sign(text)? {
        (Sign::ValueType(first), _) => Some(basic_of(kinds, first)),
        (Sign::Parenthesis, _) => None,
    }
}
