// Texts by number, kinds by name and by type, and the types in descriptors (JVMS §4.3).
use crate::names::push_units;
use cb_kinds::{
    PairNumbers, Sign, TextNumbers, Texts, array_of, basic_of, component_of, each_once,
    enter_kinds_of_name, enter_kinds_of_type, enter_kinds_of_types, kind_number, next_sign,
    types_as_spelled,
};
use cb_rows::{Trouble, units_of};
use std::alloc::{AllocError, Global};

pub(crate) fn tell(
    alloc: Global,
    told: &mut String,
    table: &str,
    row: &str,
) -> Result<(), Trouble> {
    let text = units_of(alloc, row)?;
    match table {
        "texts" => tell_texts(alloc, told, row)?,
        "numbers and kinds" => tell_kind(alloc, told, &text)?,
        "first of equal texts" => tell_number(alloc, told, &text)?,
        "first of equal pairs" => tell_pair(alloc, told, row)?,
        "of names" => tell_kinds_of_name(alloc, told, &text)?,
        "of types" => tell_kinds_of_type(alloc, told, &text)?,
        "arrays" => push_units(told, &array_of(alloc, &text)?)?,
        "signs" => tell_signs(alloc, told, &text)?,
        "values" => tell_values(alloc, told, &text)?,
        "laws" => {
            each_once();
            types_as_spelled();
            told.push_str("called")?;
        }
        _ => return Err(Trouble::NotUnderstood),
    }
    Ok(())
}

/// Texts into which those of a row are entered.
fn texts(alloc: Global, row: &str) -> Result<Texts, AllocError> {
    let mut texts = Texts::new(alloc);
    for text in row.split(' ') {
        texts.enter(&units_of(alloc, text)?)?;
    }
    Ok(texts)
}

/// Adds the texts in order, with a blank in front of each.
fn push_texts(told: &mut String, texts: &Texts) -> Result<(), AllocError> {
    for number in 0..texts.len() {
        told.push(' ')?;
        push_units(told, texts.text(number as u32))?;
    }
    Ok(())
}

/// How many texts there are of those of a row, each once, and the texts.
fn tell_texts(alloc: Global, told: &mut String, row: &str) -> Result<(), AllocError> {
    let texts = texts(alloc, row)?;
    write!(told, "{}:", texts.len())?;
    push_texts(told, &texts)
}

/// The number and the kind of a text among three, each of which was entered twice.
fn tell_kind(alloc: Global, told: &mut String, text: &[u16]) -> Result<(), AllocError> {
    let texts = texts(alloc, "a bc a  bc ")?;
    let kind = kind_number(&texts, text);
    write!(told, "{:?} {kind}", texts.number(text))
}

/// The number of a text among four, of which two are equal.
fn tell_number(alloc: Global, told: &mut String, text: &[u16]) -> Result<(), AllocError> {
    let mut texts = TextNumbers::new(alloc);
    for text in "a b a c".split(' ') {
        texts.push(&units_of(alloc, text)?)?;
    }
    write!(told, "{:?} of {}", texts.number(text), texts.len())
}

/// Adds a pair of a name and a descriptor.
fn add(
    alloc: Global,
    pairs: &mut PairNumbers,
    name: &str,
    descriptor: &str,
) -> Result<(), AllocError> {
    let name = units_of(alloc, name)?;
    let descriptor = units_of(alloc, descriptor)?;
    pairs.push(&name, &descriptor)
}

/// Four pairs, of which two are equal.
fn four_pairs(alloc: Global) -> Result<PairNumbers, AllocError> {
    let mut pairs = PairNumbers::new(alloc);
    for (name, descriptor) in [("a", "()V"), ("a", "()V"), ("b", "()V"), ("a", "()I")] {
        add(alloc, &mut pairs, name, descriptor)?;
    }
    Ok(pairs)
}

/// Adds the number of a name and a descriptor among pairs, and how many these are.
fn push_pair(
    alloc: Global,
    told: &mut String,
    pairs: &PairNumbers,
    name: &str,
    descriptor: &str,
) -> Result<(), AllocError> {
    let name = units_of(alloc, name)?;
    let descriptor = units_of(alloc, descriptor)?;
    write!(
        told,
        "{:?} of {}",
        pairs.number(&name, &descriptor),
        pairs.len()
    )
}

/// The number of a name and a descriptor among four.
fn tell_pair(alloc: Global, told: &mut String, row: &str) -> Result<(), Trouble> {
    let (name, descriptor) = row.split_once(' ').ok_or(Trouble::NotUnderstood)?;
    let pairs = four_pairs(alloc)?;
    Ok(push_pair(alloc, told, &pairs, name, descriptor)?)
}

/// The kinds of a name.
fn tell_kinds_of_name(alloc: Global, told: &mut String, text: &[u16]) -> Result<(), AllocError> {
    let mut kinds = Texts::new(alloc);
    enter_kinds_of_name(&mut kinds, text)?;
    push_texts(told, &kinds)
}

/// The kinds of a type.
fn tell_kinds_of_type(alloc: Global, told: &mut String, text: &[u16]) -> Result<(), AllocError> {
    let mut kinds = Texts::new(alloc);
    enter_kinds_of_type(&mut kinds, text)?;
    push_texts(told, &kinds)
}

/// Adds the signs of a descriptor in order, with a blank in front of each.
fn push_signs(told: &mut String, descriptor: &[u16]) -> Result<(), AllocError> {
    let mut rest = descriptor;
    for _ in 0..descriptor.len() {
        let Some((sign, behind)) = next_sign(rest) else {
            break;
        };
        told.push(' ')?;
        match sign {
            Sign::ValueType(text) => push_units(told, text)?,
            Sign::Parenthesis => told.push(')')?,
        }
        rest = behind;
    }
    Ok(())
}

/// The signs of a descriptor, and behind a colon the kinds of its types.
fn tell_signs(alloc: Global, told: &mut String, descriptor: &[u16]) -> Result<(), AllocError> {
    let mut kinds = Texts::new(alloc);
    enter_kinds_of_types(&mut kinds, descriptor)?;
    push_signs(told, descriptor)?;
    told.push_str(" :")?;
    push_texts(told, &kinds)
}

/// The basic value of a type and that of its component, where `[[La/B;` and its components are known. A type of one sign is no reference.
fn tell_values(alloc: Global, told: &mut String, text: &[u16]) -> Result<(), AllocError> {
    let mut kinds = Texts::new(alloc);
    enter_kinds_of_name(&mut kinds, &units_of(alloc, "[[La/B;")?)?;
    let found = basic_of(&kinds, text);
    if found.is_reference() != (text.len() > 1) {
        told.push_str("another sort: ")?;
    }
    write!(told, "{found:?} {:?}", component_of(&kinds, text))
}
