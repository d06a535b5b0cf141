// Descriptors of methods (JVMS §4.3.3).
ghost use Rattle.std.specs.Prelude.{◌≡◌, ℕ, IfOk, IfSome, IsSomeAnd, MatchOption, Some};
ghost use Rattle.std.specs.Option.{option_map};
ghost use Rattle.cb_names.specs.Descriptors.{IsMethodDescriptor, IsReturnDescriptor, floating_in};
ghost use Rattle.cb_names.specs.Types.{IsType, JavaMethodType, SpellsMethodType, SpellsResult, method_type_of, result_text, type_of};

use crate::descriptor::field_type;
use crate::floating::Floating;
use crate::parameters::{behind_parameters, parameters_at};
use crate::signs::{LEFT_PARENTHESIS, VOID};
use crate::types::{FieldType, MethodType};
use crate::unit::behind_unit;
use std::alloc::{AllocError, Global};

/// The type whose descriptor a text is, or `None` where it is no method descriptor (JVMS §4.3.3). Takes time in its
/// length, and looks at each unit once.
pub fn method_type(alloc: Global, text: &[u16]) -> Result<Option<MethodType<'_>>, AllocError>
    ensures found { IfOk result (λ found. MatchOption found ((words : ℕ) → IsMethodDescriptor text.now words → ⊥)
        (λ type. SpellsMethodType text.now (method_type_of type))) }
    ensures exact { (type : JavaMethodType) → SpellsMethodType text.now type
        → IfOk result (λ found. IsSomeAnd found (λ found. method_type_of found ≡ type)) }
{
    let Some(front) = behind_unit(text, LEFT_PARENTHESIS) else {
        return Ok(None);
    };
    let Some((parameters, returned)) = parameters_at(alloc, front)? else {
        return Ok(None);
    };
    match result_type(returned) {
        Some(result) => Ok(Some(MethodType { parameters, result })),
        None => Ok(None),
    }
}

/// What a method descriptor says that is found without memory.
#[derive(Clone, Copy, Debug, PartialEq, Eq)]
pub struct MethodFacts {
    /// How many words the parameters take, at most 255, where a `long` or `double` takes two and `this` isn't counted.
    pub words: u8,
    /// The first floating-point type that it names as a base type.
    pub floating: Option<Floating>,
}

/// What a text says as a method descriptor, or `None` where it is none (JVMS §4.3.3). Takes no memory, and time in the
/// text's length.
pub fn method_facts(text: &[u16]) -> Option<MethodFacts>
    ensures words { MatchOption result ((words : ℕ) → IsMethodDescriptor text.now words → ⊥)
        (λ facts. IsMethodDescriptor text.now facts.words) }
    ensures exact { (words : ℕ) → IsMethodDescriptor text.now words
        → IsSomeAnd result (λ facts. facts.words ≡ words) }
    ensures floating { IfSome result (λ facts. facts.floating ≡ floating_in text.now) }
{
    let parameters = behind_unit(text, LEFT_PARENTHESIS)?;
    let (words, floating, returned) = behind_parameters(parameters)?;
    match result_type(returned) {
        Some(given) => Some(MethodFacts {
            words,
            floating: floating.or(floating_given(given)),
        }),
        None => None,
    }
}

/// How many words the parameters of a method descriptor take, at most 255, where a `long` or `double` takes two and
/// `this` isn't counted, or `None` where the text is no method descriptor (JVMS §4.3.3). Takes no memory, and time in
/// the text's length.
pub fn parameter_words(text: &[u16]) -> Option<u8>
    ensures words { MatchOption result ((words : ℕ) → IsMethodDescriptor text.now words → ⊥)
        (λ words. IsMethodDescriptor text.now words) }
    ensures exact { (words : ℕ) → IsMethodDescriptor text.now words → result ≡ Some words }
{
    let facts = method_facts(text)?;
    Some(facts.words)
}

/// The floating-point type that is in what a method gives.
fn floating_given(given: Option<FieldType<'_>>) -> Option<Floating>
    requires { IfSome (option_map type_of given) IsType }
    ensures { result ≡ floating_in (result_text (option_map type_of given.entry)) }
{
    given?.floating()
}

/// What a method gives whose descriptor ends in this text: a value of a type, or nothing. `None` where the text says
/// neither.
fn result_type(text: &[u16]) -> Option<Option<FieldType<'_>>>
    ensures { MatchOption result (IsReturnDescriptor text.now → ⊥)
        (λ given. SpellsResult text.now (option_map type_of given)) }
{
    if matches!(text, [VOID]) {
        return Some(None);
    }
    match field_type(text) {
        Some(given) => Some(Some(given)),
        None => None,
    }
}
