// Names and descriptors as the JVMS has them (§4.2 and §4.3), and texts that are none. Types are written as in Java.
use cb_names::{
    BaseType, ElementType, FieldType, class_type, field_type, floating_in, floating_of_parts,
    is_array_descriptor, is_class_name, is_field_descriptor, is_method_name, is_unqualified_name,
    method_facts, method_type, name_kinds, one_method_type, one_type, parameter_words,
};
use cb_rows::{Trouble, number_of, units_of};
use std::alloc::{AllocError, Global};

pub(crate) fn tell(
    alloc: Global,
    told: &mut String,
    table: &str,
    row: &str,
) -> Result<(), Trouble> {
    let text = units_of(alloc, row)?;
    match table {
        "kinds" => tell_kinds(told, &text)?,
        "field descriptors" => tell_descriptor(told, &text)?,
        "dimensions" => tell_dimensions(alloc, told, row)?,
        "field types" => tell_type(told, &text)?,
        "class constants" => tell_class(told, &text)?,
        "method types" => tell_method(alloc, told, &text)?,
        "parameter words" => write!(told, "{:?}", parameter_words(&text))?,
        "many parameters" => tell_parameters(alloc, told, row)?,
        "floating" => tell_floating(told, &text)?,
        "laws" => {
            one_type();
            one_method_type();
            floating_of_parts();
            told.push_str("called")?;
        }
        _ => return Err(Trouble::NotUnderstood),
    }
    Ok(())
}

/// Adds a base type as it is written in Java.
fn push_base(told: &mut String, base: BaseType) -> Result<(), AllocError> {
    told.push_str(match base {
        BaseType::Byte => "byte",
        BaseType::Char => "char",
        BaseType::Double => "double",
        BaseType::Float => "float",
        BaseType::Int => "int",
        BaseType::Long => "long",
        BaseType::Short => "short",
        BaseType::Boolean => "boolean",
    })
}

/// Adds a text whose units are characters.
pub(crate) fn push_units(told: &mut String, units: &[u16]) -> Result<(), AllocError> {
    for unit in units {
        told.push(char::from_u32(u32::from(*unit)).unwrap_or('?'))?;
    }
    Ok(())
}

/// Adds a type as it is written in Java, with a class in internal form, or `none`.
fn push_type(told: &mut String, found: Option<FieldType<'_>>) -> Result<(), AllocError> {
    let Some(found) = found else {
        return told.push_str("none");
    };
    match found.element {
        ElementType::Base(base) => push_base(told, base)?,
        ElementType::Class(name) => push_units(told, name)?,
    }
    for _ in 0..found.dimensions {
        told.push_str("[]")?;
    }
    Ok(())
}

/// Whether a text is an unqualified name, a method's and a class's.
fn tell_kinds(told: &mut String, name: &[u16]) -> Result<(), AllocError> {
    let kinds = name_kinds(name);
    let unqualified = is_unqualified_name(name);
    let method = is_method_name(name);
    let class = is_class_name(name);
    if (kinds.unqualified, kinds.method, kinds.class) != (unqualified, method, class) {
        told.push_str("the kinds differ: ")?;
    }
    write!(told, "{unqualified} {method} {class}")
}

/// Whether a text is the descriptor of a field, and of an array.
fn tell_descriptor(told: &mut String, text: &[u16]) -> Result<(), AllocError> {
    let field = is_field_descriptor(text);
    let array = is_array_descriptor(text);
    write!(told, "{field} {array}")
}

/// A character as often as is said, between two texts.
fn repeated(
    alloc: Global,
    front: &str,
    unit: u16,
    count: usize,
    back: &str,
) -> Result<Vec<u16>, AllocError> {
    let mut text = units_of(alloc, front)?;
    for _ in 0..count {
        text.push(unit)?;
    }
    text.extend_from_slice(units_of(alloc, back)?.as_slice())?;
    Ok(text)
}

/// The same of an array of long of so many dimensions.
fn tell_dimensions(alloc: Global, told: &mut String, row: &str) -> Result<(), Trouble> {
    let text = repeated(alloc, "", 0x5B, number_of(row)?, "J")?;
    Ok(tell_descriptor(told, &text)?)
}

/// The type that a descriptor spells, its words, whether it is a reference, and its component.
fn tell_type(told: &mut String, text: &[u16]) -> Result<(), AllocError> {
    let Some(found) = field_type(text) else {
        return push_type(told, None);
    };
    push_type(told, Some(found))?;
    write!(told, " {} {} ", found.words(), found.is_reference())?;
    push_type(told, found.component())
}

/// The type that the name of a class constant spells, and the class that it names.
fn tell_class(told: &mut String, name: &[u16]) -> Result<(), AllocError> {
    let found = class_type(name);
    push_type(told, found)?;
    if let Some(class) = found.and_then(|found| found.class()) {
        told.push_str(" of ")?;
        push_units(told, class)?;
    }
    Ok(())
}

/// The words of a method's parameters, and the types that its descriptor spells.
fn tell_method(alloc: Global, told: &mut String, text: &[u16]) -> Result<(), AllocError> {
    let Some(found) = method_type(alloc, text)? else {
        return told.push_str("none");
    };
    write!(told, "{} ", found.words())?;
    for parameter in &found.parameters {
        push_type(told, Some(*parameter))?;
        told.push(' ')?;
    }
    told.push_str(": ")?;
    push_type(told, found.result)
}

/// The words of the parameters of a method's descriptor, in which `I` stands as often as is said behind the front.
fn tell_parameters(alloc: Global, told: &mut String, row: &str) -> Result<(), Trouble> {
    let (front, count) = row.split_once(' ').ok_or(Trouble::NotUnderstood)?;
    let text = repeated(alloc, front, 0x49, number_of(count)?, ")V")?;
    Ok(write!(told, "{:?}", parameter_words(&text))?)
}

/// The first floating-point type of a descriptor. The facts of a method and the type of a field have the same.
fn tell_floating(told: &mut String, text: &[u16]) -> Result<(), AllocError> {
    let found = floating_in(text);
    let of_method = method_facts(text).map(|facts| facts.floating);
    let of_field = field_type(text).map(|field| field.floating());
    if of_method.unwrap_or(found) != found || of_field.unwrap_or(found) != found {
        told.push_str("the types differ: ")?;
    }
    write!(told, "{found:?}")
}
