// Names of classes from left to right (JVMS §4.2.1).
ghost use Rattle.std.specs.Prelude.{◌↔◌, ◌∷◌, ℕ, IsTrue, List, MatchOption};
ghost use Rattle.cb_names.specs.Fronts.{BeginsWithName, IsRest};
ghost use Rattle.cb_names.specs.Names.{MayStandInName};

use crate::signs::{BRACKET, DOT, SEMICOLON, SLASH};

/// The name of the class in front of the first `;` and what stands behind that, or `None` where there is none. Looks
/// at each unit once.
pub(crate) fn behind_class_name(text: &[u16]) -> Option<(&[u16], &[u16])>
    ensures { MatchOption result ((name rest : List ℕ) → BeginsWithName text.now name rest → ⊥)
        (λ read. BeginsWithName text.now read.0.now read.1.now) }
{
    let mut begun = false;
    for (index, unit) in text.iter().enumerate() {
        // most units are greater than all that have a meaning in names
        if *unit > BRACKET {
            begun = true;
        } else if *unit == SEMICOLON {
            if !begun {
                return None;
            }
            return Some((&text[..index], &text[index + 1..]));
        } else {
            begun = begun_behind(begun, *unit)?;
        }
    }
    None
}

/// Whether a part of a name has a unit behind this one, where it has one or not before, or `None` where no name goes on
/// with it.
#[inline]
pub(crate) fn begun_behind(begun: bool, unit: u16) -> Option<bool>
    ensures { MatchOption result ((rest : List ℕ) → IsRest begun (unit ∷ rest) → ⊥)
        (λ after. (rest : List ℕ) → IsRest begun (unit ∷ rest) ↔ IsRest after rest) }
{
    if may_stand_in_name(unit) {
        Some(true)
    } else if unit == SLASH && begun {
        Some(false)
    } else {
        None
    }
}

/// Whether a unit may stand in an unqualified name (JVMS §4.2.2).
#[inline]
fn may_stand_in_name(unit: u16) -> bool
    ensures { IsTrue result ↔ MayStandInName unit }
{
    !matches!(unit, DOT | SEMICOLON | BRACKET | SLASH)
}
