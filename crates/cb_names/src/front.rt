// The type at the front of a text (JVMS §4.3.2).
ghost use Rattle.std.specs.Prelude.{◌≡◌, ◌==◌, ℕ, List, MatchOption, not, position};
ghost use Rattle.cb_names.specs.Fronts.{BeginsWithElement, BeginsWithType};
ghost use Rattle.cb_names.specs.Signs.{bracket};
ghost use Rattle.cb_names.specs.Types.{Element, JavaType, element_of, type_of};

use crate::base::base_of_letter;
use crate::class_name::behind_class_name;
use crate::signs::{BRACKET, CLASS};
use crate::types::{ElementType, FieldType};

/// The type at the front and what stands behind it, or `None` where there is none. Looks at each unit once.
pub(crate) fn behind_field_type(text: &[u16]) -> Option<(FieldType<'_>, &[u16])>
    ensures { MatchOption result ((type : JavaType) (rest : List ℕ) → BeginsWithType text.now type rest → ⊥)
        (λ read. BeginsWithType text.now (type_of read.0) read.1.now) }
{
    let brackets = dimensions_of(text)?;
    let dimensions = u8::try_from(brackets).ok()?;
    let (element, rest) = behind_element_type(&text[brackets..])?;
    let found = FieldType {
        dimensions,
        element,
    };
    Some((found, rest))
}

/// How many brackets stand in front of another unit.
fn dimensions_of(text: &[u16]) -> Option<usize>
    ensures { result ≡ position (λ unit. not (unit == bracket)) text.now }
{
    text.iter().position(|unit| *unit != BRACKET)
}

/// The base type or class at the front and what stands behind it, or `None` where there is none.
fn behind_element_type(text: &[u16]) -> Option<(ElementType<'_>, &[u16])>
    ensures { MatchOption result ((element : Element) (rest : List ℕ) → BeginsWithElement text.now element rest → ⊥)
        (λ read. BeginsWithElement text.now (element_of read.0) read.1.now) }
{
    let (letter, rest) = text.split_first()?;
    if *letter == CLASS {
        let (name, behind) = behind_class_name(rest)?;
        Some((ElementType::Class(name), behind))
    } else {
        let base = base_of_letter(*letter)?;
        Some((ElementType::Base(base), rest))
    }
}
