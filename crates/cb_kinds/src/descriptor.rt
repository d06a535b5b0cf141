// The types in descriptors.
ghost use Rattle.std.specs.Prelude.{◌≡◌, ◌<◌, ◌≤◌, ◌+◌, ◌==◌, [], ◌∷◌, IfSome, MatchOption, false, length, not};
ghost use Rattle.std.specs.List.{list_any, prefix_len};
ghost use Rattle.cb_names.specs.Signs.{semicolon};
ghost use Rattle.cb_kinds.specs.Descriptors.{sign_of, signs};

use crate::units::{BRACKET, CLASS, RIGHT_PARENTHESIS, SEMICOLON, is_base, place_of};

/// What a descriptor says: a type, by the text that says it, or the parenthesis behind the parameters.
#[derive(Clone, Copy, Debug)]
pub enum Sign<'a> {
    ValueType(&'a [u16]),
    Parenthesis,
}

/// The first sign of a descriptor, and what stands behind it. Takes time in the length of what stands before that.
pub fn next_sign(text: &[u16]) -> Option<(Sign<'_>, &[u16])>
    ensures signs { MatchOption result (signs text.now ≡ [])
        (λ found. signs text.now ≡ sign_of found.0 ∷ signs found.1.now) }
    ensures shorter { IfSome result (λ found. length found.1.now < length text.now) }
{
    let mut start = 0;
    for (index, unit) in text.iter().enumerate() {
        if *unit == BRACKET {
            continue;
        }
        let behind = &text[index + 1..];
        if *unit == CLASS {
            let end = index + 1 + end_of_name(behind)?;
            return Some((Sign::ValueType(&text[start..end]), &text[end..]));
        }
        if *unit == RIGHT_PARENTHESIS {
            return Some((Sign::Parenthesis, behind));
        }
        if is_base(*unit) {
            return Some((Sign::ValueType(&text[start..=index]), behind));
        }
        start = index + 1;
    }
    None
}

/// How many units a name and the semicolon behind it take, or `None` where there is no semicolon.
fn end_of_name(text: &[u16]) -> Option<usize>
    ensures { MatchOption result (list_any (λ other. other == semicolon) text.now ≡ false)
        (λ end. (end ≡ prefix_len (λ other. not (other == semicolon)) text.now + 1) × (end ≤ length text.now)) }
{
    let place = place_of(text, SEMICOLON);
    if place < text.len() {
        Some(place + 1)
    } else {
        None
    }
}
