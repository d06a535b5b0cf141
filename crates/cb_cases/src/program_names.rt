// What the lines of the text call by names, and programs by numbers.
use crate::number::narrow;
use crate::trouble::Trouble;
use cb_io::text_of;
use cb_kinds::Basic;
use cb_link::Program;
use cb_text::Units;
use std::alloc::{AllocError, Global};

/// A method by its class, its name and its descriptor.
#[derive(Drop)]
pub(crate) struct MethodName {
    class: u32,
    name: Units,
    descriptor: Units,
}

/// The units of a text.
pub(crate) fn units_of(alloc: Global, text: &str) -> Result<Units, AllocError> {
    let mut units = Units::new(alloc);
    for unit in text.encode_utf16() {
        units.push(unit)?;
    }
    Ok(units)
}

/// The number of the class of a name.
pub(crate) fn class_named(program: &Program, name: &str) -> Result<u32, Trouble> {
    for class in 0..narrow(program.class_count())? {
        if name_of_class(program, class)? == name {
            return Ok(class);
        }
    }
    Err(Trouble::UnknownInProgram)
}

/// The name of a class.
pub(crate) fn name_of_class(program: &Program, class: u32) -> Result<&str, Trouble> {
    if class as usize >= program.class_count() {
        return Err(Trouble::UnknownInProgram);
    }
    Ok(program.class_name(class).text())
}

/// The number of the kind of a name.
pub(crate) fn kind_named(alloc: Global, program: &Program, name: &str) -> Result<u32, Trouble> {
    let units = units_of(alloc, name)?;
    for kind in 0..program.kind_count() {
        if program.kind_name(kind) == units.as_slice() {
            return Ok(kind);
        }
    }
    Err(Trouble::UnknownInProgram)
}

/// The name of a kind.
pub(crate) fn name_of_kind(alloc: Global, program: &Program, kind: u32) -> Result<String, Trouble> {
    if kind >= program.kind_count() {
        return Err(Trouble::UnknownInProgram);
    }
    Ok(text_of(alloc, program.kind_name(kind))?)
}

/// The words for what values are: a base type's name, or that of a kind.
pub(crate) fn words_of_basic(
    alloc: Global,
    program: &Program,
    basic: Basic,
) -> Result<String, Trouble> {
    let name = match basic {
        Basic::Boolean => "boolean",
        Basic::Byte => "byte",
        Basic::Char => "char",
        Basic::Short => "short",
        Basic::Int => "int",
        Basic::Long => "long",
        Basic::Reference(kind) => return name_of_kind(alloc, program, kind),
    };
    Ok(String::from_str(alloc, name)?)
}

/// The number of the method of a class, a name and a descriptor.
pub(crate) fn method_named(alloc: Global, program: &Program, words: &str) -> Result<u32, Trouble> {
    let named = method_name(alloc, program, words)?;
    for method in 0..program.method_count() {
        if is_method(program, method, &named) {
            return Ok(method);
        }
    }
    Err(Trouble::UnknownInProgram)
}

/// A method by three words.
fn method_name(alloc: Global, program: &Program, words: &str) -> Result<MethodName, Trouble> {
    let Some((class, member)) = words.split_once(' ') else {
        return Err(Trouble::NotUnderstood);
    };
    let Some((name, descriptor)) = member.split_once(' ') else {
        return Err(Trouble::NotUnderstood);
    };
    Ok(MethodName {
        class: class_named(program, class)?,
        name: units_of(alloc, name)?,
        descriptor: units_of(alloc, descriptor)?,
    })
}

/// Whether a method has these names.
fn is_method(program: &Program, method: u32, named: &MethodName) -> bool {
    if method >= program.method_count() || program.class_of(method) != named.class {
        return false;
    }
    let record = program.method(method);
    let pool = &program.class(program.class_of(method) as usize).pool;
    pool.text(record.name) == Some(named.name.as_slice())
        && pool.text(record.descriptor) == Some(named.descriptor.as_slice())
}

/// The class, the name and the descriptor of a method.
pub(crate) fn words_of_method(
    alloc: Global,
    program: &Program,
    method: u32,
) -> Result<String, Trouble> {
    if method >= program.method_count() {
        return Err(Trouble::UnknownInProgram);
    }
    let class = program.class_of(method);
    let record = program.method(method);
    let pool = &program.class(class as usize).pool;
    let name = text_of(alloc, pool.text(record.name).unwrap_or(&[]))?;
    let descriptor = text_of(alloc, pool.text(record.descriptor).unwrap_or(&[]))?;
    let class = program.class_name(class).text();
    Ok(format!(in alloc; "{class} {name} {descriptor}")?)
}
