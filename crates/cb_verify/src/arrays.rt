// What arrays hold.
ghost use Rattle.std.specs.Prelude.{◌≡◌};
ghost use Rattle.cb_verify.specs.Members.{are_any, are_numbers, are_references, component, element_type, is_array_of};

use crate::VerificationType;
use cb_kinds::Basic;
use cb_link::Program;
use cb_shapes::Elements;

/// What the components of an array are; none of what is no array.
pub(crate) fn component(program: &Program, array: VerificationType) -> Option<Basic>
    ensures { result ≡ component program.now array }
{
    match array {
        VerificationType::Object(kind) if kind < program.kind_count() => program.element(kind),
        _ => None,
    }
}

/// Whether components are numbers that these instructions load and store.
fn are_numbers(elements: Elements, component: Option<Basic>) -> bool
    ensures { result ≡ are_numbers elements component }
{
    match elements {
        Elements::BooleansOrBytes => matches!(component, Some(Basic::Boolean | Basic::Byte)),
        Elements::Chars => matches!(component, Some(Basic::Char)),
        Elements::Shorts => matches!(component, Some(Basic::Short)),
        Elements::Ints => matches!(component, Some(Basic::Int)),
        Elements::Longs => matches!(component, Some(Basic::Long)),
    }
}

/// Whether it is null or an array of such numbers.
pub(crate) fn is_array_of_numbers(
    program: &Program,
    elements: Elements,
    array: VerificationType,
) -> bool
    ensures { result ≡ is_array_of program.now (are_numbers elements) array }
{
    array == VerificationType::Null || are_numbers(elements, component(program, array))
}

/// Whether it is null or an array of references.
pub(crate) fn is_array_of_references(program: &Program, array: VerificationType) -> bool
    ensures { result ≡ is_array_of program.now are_references array }
{
    array == VerificationType::Null
        || matches!(component(program, array), Some(Basic::Reference(_)))
}

/// Whether it is null or an array.
pub(crate) fn is_array(program: &Program, array: VerificationType) -> bool
    ensures { result ≡ is_array_of program.now are_any array }
{
    array == VerificationType::Null || component(program, array).is_some()
}

/// The type of what is loaded from an array of references: null from null.
pub(crate) fn element_type(program: &Program, array: VerificationType) -> Option<VerificationType>
    ensures { result ≡ element_type program.now array }
{
    if array == VerificationType::Null {
        return Some(VerificationType::Null);
    }
    match component(program, array)? {
        Basic::Reference(kind) => Some(VerificationType::Object(kind)),
        _ => None,
    }
}
