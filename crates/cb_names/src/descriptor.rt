// Descriptors of fields (JVMS §4.3.2).
ghost use Rattle.std.specs.Prelude.{◌≡◌, ◌↔◌, IsSomeAnd, IsTrue, MatchOption};
ghost use Rattle.cb_names.specs.Descriptors.{IsArrayDescriptor, IsFieldDescriptor};
ghost use Rattle.cb_names.specs.Types.{JavaType, NamesType, SpellsType, type_of};

use crate::front::behind_field_type;
use crate::name::is_class_name;
use crate::signs::BRACKET;
use crate::types::{ElementType, FieldType};

/// The type whose descriptor a text is, or `None` where it is no field descriptor: a base type or a class type, behind
/// a bracket for each dimension, of which there are at most 255 (JVMS §4.3.2). Takes time in its length, and looks at
/// each unit once.
pub fn field_type(text: &[u16]) -> Option<FieldType<'_>>
    ensures found { MatchOption result (IsFieldDescriptor text.now → ⊥) (λ type. SpellsType text.now (type_of type)) }
    ensures exact { (type : JavaType) → SpellsType text.now type → IsSomeAnd result (λ found. type_of found ≡ type) }
{
    if begins_no_type(text) {
        return None;
    }
    let (found, rest) = behind_field_type(text)?;
    if rest.is_empty() { Some(found) } else { None }
}

/// Whether the first unit is one with which no type begins, as that of most names is. One comparison tells it.
#[inline]
fn begins_no_type(text: &[u16]) -> bool
    ensures { IsTrue result → IsFieldDescriptor text.now → ⊥ }
{
    match text {
        [first, ..] => *first > BRACKET,
        [] => false,
    }
}

/// The type that a constant Class of this name names: a class by its name, or an array by its descriptor. `None` where
/// the text is neither (JVMS §4.4.1). Takes time in its length.
pub fn class_type(name: &[u16]) -> Option<FieldType<'_>>
    ensures found { MatchOption result ((type : JavaType) → NamesType name.now type → ⊥)
        (λ type. NamesType name.now (type_of type)) }
    ensures exact { (type : JavaType) → NamesType name.now type → IsSomeAnd result (λ found. type_of found ≡ type) }
{
    if is_class_name(name) {
        return Some(FieldType {
            dimensions: 0,
            element: ElementType::Class(name),
        });
    }
    let found = field_type(name)?;
    if found.dimensions > 0 {
        Some(found)
    } else {
        None
    }
}

/// Whether a text is a field descriptor (JVMS §4.3.2). Takes time in its length.
pub fn is_field_descriptor(text: &[u16]) -> bool
    ensures { IsTrue result ↔ IsFieldDescriptor text.now }
{
    field_type(text).is_some()
}

/// Whether a text is a field descriptor with at least one dimension, as it stands in place of a class's name (JVMS
/// §4.4.1). Takes time in its length.
pub fn is_array_descriptor(text: &[u16]) -> bool
    ensures { IsTrue result ↔ IsArrayDescriptor text.now }
{
    matches!(text, [BRACKET, ..]) && is_field_descriptor(text)
}
