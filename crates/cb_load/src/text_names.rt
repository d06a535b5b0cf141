// The names of classes in descriptors (JVMS §4.3).
ghost use Rattle.std.specs.Prelude.{◌≡◌, ◌<◌, ◌==◌, [], ◌∷◌, ◌++◌, false, length, IfSome, MatchOption, OnOk, not};
ghost use Rattle.std.specs.List.{list_any, prefix_len};
ghost use Rattle.cb_load.specs.InnerEntering.{marked};
ghost use Rattle.cb_load.specs.Inner.{entered_all};
ghost use Rattle.cb_load.specs.Names.{class_names, names_in};

use crate::entries::Entries;
use cb_plain::OutOfMemory;

/// `L`, behind which the name of a class stands (JVMS §4.3.2).
const LETTER_CLASS: u16 = b'L' as u16;

/// `;`, with which the name ends.
const SEMICOLON: u16 = b';' as u16;

/// `[`, with which the name of an array type begins (JVMS §4.4.1).
const BRACKET: u16 = b'[' as u16;

/// Enters what a constant names: a class, or an array's elements, if they have one. Takes expected time in its length.
pub(crate) fn enter_class_name(
    name: &[u16],
    needed: bool,
    entries: &mut Entries,
) -> Result<(), OutOfMemory>
    ensures { OnOk result (entries.new ≡ entered_all entries.old (marked needed (class_names name.now))) }
{
    if name.first() == Some(&BRACKET) {
        enter_descriptor(name, needed, entries)
    } else {
        entries.enter(name, needed)
    }
}

/// Enters the names in a descriptor, in order. Takes expected time in its length.
pub(crate) fn enter_descriptor(
    text: &[u16],
    needed: bool,
    entries: &mut Entries,
) -> Result<(), OutOfMemory>
    ensures { OnOk result (entries.new ≡ entered_all entries.old (marked needed (names_in text.now))) }
{
    let mut rest = text;
    while let Some((name, behind)) = next_name(rest) {
        entries.enter(name, needed)?;
        rest = behind;
    }
    Ok(())
}

/// The first name, and what stands behind it.
fn next_name(text: &[u16]) -> Option<(&[u16], &[u16])>
    ensures names { MatchOption result (names_in text.now ≡ [])
        (λ found. names_in text.now ≡ found.0.now ∷ names_in found.1.now) }
    ensures shorter { IfSome result (λ found. length found.1.now < length text.now) }
{
    let (_, behind) = split_at(text, LETTER_CLASS)?;
    split_at(behind, SEMICOLON)
}

/// What stands before the first of these units, and what stands behind it.
fn split_at(text: &[u16], unit: u16) -> Option<(&[u16], &[u16])>
    ensures { MatchOption result (list_any (λ other. other == unit) text.now ≡ false)
        (λ found. (list_any (λ other. other == unit) found.0.now ≡ false) × (text.now ≡ found.0.now ++ unit ∷ found.1.now)) }
{
    let place = place_of(text, unit);
    if place < text.len() {
        Some((&text[..place], &text[place + 1..]))
    } else {
        None
    }
}

/// How many units stand before the first of these.
fn place_of(text: &[u16], unit: u16) -> usize
    ensures { result ≡ prefix_len (λ other. not (other == unit)) text.now }
{
    text.iter().take_while(|other| **other != unit).count()
}
