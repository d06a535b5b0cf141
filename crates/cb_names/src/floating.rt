// The base types float and double in descriptors (JVMS §4.3.2).
ghost use Rattle.std.specs.Prelude.{◌≡◌, ◌≢◌, ◌++◌, ℕ, List, None, Some, replicate};
ghost use Rattle.std.specs.Option.{option_or};
ghost use Rattle.cb_names.specs.declared.base.BaseType.{BaseType};
ghost use Rattle.cb_names.specs.Descriptors.{floating_in};
ghost use Rattle.cb_names.specs.FirstFloating.{first_floating};
ghost use Rattle.cb_names.specs.Names.{IsClassName};
ghost use Rattle.cb_names.specs.Signs.{bracket};
ghost use Rattle.cb_names.specs.Types.{JavaMethodType, Named, Primitive, SpellsMethodType, element_text, result_text};

use crate::signs::{CLASS, DOUBLE, FLOAT, SEMICOLON};

/// A floating-point type (JVMS §2.3.2).
#[derive(Clone, Copy, Debug, PartialEq, Eq)]
pub enum Floating {
    /// `float`
    Float,
    /// `double`
    Double,
}

/// The first floating-point type that a descriptor of a field or method names as a base type. Takes time in its
/// length.
pub fn floating_in(descriptor: &[u16]) -> Option<Floating>
    ensures { result ≡ floating_in descriptor.now }
{
    let mut in_class = false;
    for unit in descriptor {
        match *unit {
            SEMICOLON => in_class = false,
            _ if in_class => {}
            DOUBLE => return Some(Floating::Double),
            FLOAT => return Some(Floating::Float),
            CLASS => in_class = true,
            _ => {}
        }
    }
    None
}

/// What a descriptor has is what its parts have: a base type is a floating-point type or none, the type of a class
/// has none, an array has that of its elements, and a method that of its first parameter that has one, or else that
/// of what it gives.
pub fn floating_of_parts()
    ensures float { floating_in (element_text (Primitive BaseType.Float)) ≡ Some Floating.Float }
    ensures double { floating_in (element_text (Primitive BaseType.Double)) ≡ Some Floating.Double }
    ensures base { (base : BaseType) → base ≢ BaseType.Float → base ≢ BaseType.Double
        → floating_in (element_text (Primitive base)) ≡ None }
    ensures void { floating_in (result_text None) ≡ None }
    ensures class { (name : List ℕ) → IsClassName name → floating_in (element_text (Named name)) ≡ None }
    ensures array { (dimensions : ℕ) (element : List ℕ)
        → floating_in (replicate dimensions bracket ++ element) ≡ floating_in element }
    ensures method { (text : List ℕ) (type : JavaMethodType) → SpellsMethodType text type
        → floating_in text ≡ option_or (first_floating type.parameters) (floating_in (result_text type.result)) }
{}
