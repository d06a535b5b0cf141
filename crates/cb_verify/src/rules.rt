// What instructions that name no member give for what they take.
ghost use Rattle.std.specs.Prelude.{◌≡◌, ◌≤◌, [], ◌∷◌, length, not, take, IsTrue, List as Items, Some, None, if◌then◌else◌};
ghost use Rattle.cb_verify.specs.declared.verification_type.VerificationType.{VerificationType as AnyType};
ghost use Rattle.cb_verify.specs.InnerGroups.{is_by_sorts, is_exchange, is_for_element, is_for_one, is_load};
ghost use Rattle.cb_shapes.specs.Operands.{takes};
ghost use Rattle.cb_verify.specs.Rules.{constant_type, dimensions_of, given, has_dimensions, made_type};

use crate::arrays::{element_type, is_array, is_array_of_numbers, is_array_of_references};
use crate::within::Within;
use crate::{TypeFrame, VerificationType};
use cb_link::Named;
use cb_plain::Value;
use cb_shapes::Action;

/// The kinds of classes of the library, by the order of its table.
pub(crate) const STRING: u32 = 8;

const CLASS: u32 = 10;

pub(crate) const THROWABLE: u32 = 22;

/// The bracket with which the name of an array begins (JVMS §4.4.1).
pub(crate) const BRACKET: u16 = b'[' as u16;

// An array has no more dimensions than this (JVMS §4.9.1).
const MOST_DIMENSIONS: u8 = 255;

/// What an instruction gives.
pub(crate) type Given = Option<VerificationType>;

/// The type of a constant that is loaded.
fn constant_type(named: Named) -> Option<VerificationType>
    ensures { result ≡ constant_type named }
{
    match named {
        Named::Whole(Value::Int(_)) => Some(VerificationType::Int),
        Named::Whole(Value::Long(_)) => Some(VerificationType::Long),
        Named::Text(_) => Some(VerificationType::Object(STRING)),
        Named::Kind(_) => Some(VerificationType::Object(CLASS)),
        _ => None,
    }
}

/// The type of the array that an instruction makes.
fn made_type(method: &Within<'_>, pc: u32) -> Option<VerificationType>
    ensures { result ≡ made_type method.now pc }
{
    let program = method.program;
    if program.made_count(method.number, pc) == 0 {
        return None;
    }
    let site = program.site(method.number, pc, 0);
    Some(VerificationType::Object(program.site_kind(site)))
}

/// How many dimensions an array of a name has.
fn dimensions_of(name: &[u16]) -> usize
    ensures { result ≡ dimensions_of name.now }
{
    name.iter().take_while(|unit| **unit == BRACKET).count()
}

/// Whether the constant at an index is an array of at least so many dimensions.
fn has_dimensions(method: &Within<'_>, index: u16, dimensions: u8) -> bool
    ensures { result ≡ has_dimensions method.now index dimensions }
{
    match method.kind_named(index) {
        Some(kind) => usize::from(dimensions) <= dimensions_of(method.program.kind_name(kind)),
        None => dimensions == 0,
    }
}

/// What is given where a test is passed.
fn only_if(passed: bool, given: Given) -> Option<Given>
    ensures { result ≡ (if passed then Some given else None) }
{
    if passed { Some(given) } else { None }
}

/// What an instruction gives of whose operands only the sorts matter: it computes from numbers, loads a constant, branches or
/// makes an array.
fn given_by_sorts(method: &Within<'_>, pc: u32, action: Action) -> Option<Given>
    requires { IsTrue (is_by_sorts action) }
    ensures { (types : Items AnyType) → result ≡ given method.now pc action types }
{
    match action {
        Action::Compute(computation) => match computation.gives() {
            Some(sort) => Some(Some(VerificationType::of_number(sort))),
            None => Some(None),
        },
        Action::Null => Some(Some(VerificationType::Null)),
        Action::Constant(_) => Some(Some(constant_type(method.program.named(method.number, pc))?)),
        Action::Branch(_) | Action::Switch => Some(None),
        Action::NewNumbers(_) => Some(Some(made_type(method, pc)?)),
        Action::NewReferences(index) if !has_dimensions(method, index, MOST_DIMENSIONS) => {
            Some(Some(made_type(method, pc)?))
        }
        Action::NewArrays { index, dimensions } if has_dimensions(method, index, dimensions) => {
            Some(Some(made_type(method, pc)?))
        }
        _ => None,
    }
}

/// What an instruction gives for one value.
fn given_for(method: &Within<'_>, pc: u32, action: Action, value: VerificationType) -> Option<Given>
    requires { IsTrue (is_for_one action) }
    ensures { result ≡ given method.now pc action (value ∷ []) }
{
    match action {
        Action::Length => only_if(is_array(method.program, value), Some(VerificationType::Int)),
        Action::Cast(index) if value.is_initialised() => Some(Some(VerificationType::Object(
            method.kind_named(index)?,
        ))),
        Action::IsInstance(_) => only_if(value.is_initialised(), Some(VerificationType::Int)),
        Action::Throw => only_if(
            value.goes_to(method.program, VerificationType::Object(THROWABLE)),
            None,
        ),
        _ => None,
    }
}

/// What an instruction gives that loads from an array or stores in one, where an index is on top of the array and the value that is
/// stored on top of the index.
fn given_for_element(
    method: &Within<'_>,
    pc: u32,
    action: Action,
    array: VerificationType,
    value: VerificationType,
) -> Option<Given>
    requires { IsTrue (is_for_element action) }
    ensures loads { (index : AnyType) → IsTrue (is_load action) → result ≡ given method.now pc action (index ∷ array ∷ []) }
    ensures stores { (index : AnyType) → IsTrue (not (is_load action)) → result ≡ given method.now pc action (value ∷ index ∷ array ∷ []) }
{
    match action {
        Action::LoadNumber(elements) => only_if(
            is_array_of_numbers(method.program, elements, array),
            Some(VerificationType::of_number(elements.sort())),
        ),
        Action::StoreNumber(elements) => only_if(
            is_array_of_numbers(method.program, elements, array),
            None,
        ),
        Action::LoadReference => Some(Some(element_type(method.program, array)?)),
        Action::StoreReference => only_if(
            value.is_initialised() && is_array_of_references(method.program, array),
            None,
        ),
        _ => None,
    }
}

/// What an instruction gives that names no member, for what is on top of a stack.
pub(crate) fn given(
    method: &Within<'_>,
    pc: u32,
    action: Action,
    frame: &TypeFrame,
) -> Option<Given>
    requires exchanges { IsTrue (is_exchange action) }
    requires takes { length (takes [] action) ≤ length frame.now.stack }
    ensures { result ≡ given method.now pc action (take (length (takes [] action)) frame.now.stack) }
{
    match action {
        Action::Length | Action::Cast(_) | Action::IsInstance(_) | Action::Throw => {
            given_for(method, pc, action, frame.top(0))
        }
        Action::LoadNumber(_) | Action::LoadReference => {
            given_for_element(method, pc, action, frame.top(1), VerificationType::Top)
        }
        Action::StoreNumber(_) | Action::StoreReference => {
            given_for_element(method, pc, action, frame.top(2), frame.top(0))
        }
        _ => given_by_sorts(method, pc, action),
    }
}
