// The records of the library's classes, in words.
use crate::texts::{push_class_name, push_member};
use cb_classfile::ClassFile;
use cb_core::core_classes;
use cb_plain::OutOfMemory;
use cb_rows::Trouble;
use std::alloc::Global;

/// Flags of classes, fields and methods by their words, from the lowest bit on (JVMS §4.1, §4.5, §4.6). The library has those of words alone.
const WORDS: &str = "public private protected static final super - - native interface abstract";

/// Each class with its members.
pub(crate) fn tell(alloc: Global, told: &mut String) -> Result<(), Trouble> {
    let classes = core_classes(alloc)?;
    let pushed = push_classes(told, classes.as_slice());
    drop(classes);
    Ok(pushed?)
}

/// Adds classes.
fn push_classes(out: &mut String, classes: &[ClassFile]) -> Result<(), OutOfMemory> {
    for class in classes {
        push_class(out, class)?;
    }
    Ok(())
}

/// Adds a line for the class, and one for each member.
fn push_class(out: &mut String, class: &ClassFile) -> Result<(), OutOfMemory> {
    out.push_str("class")?;
    push_class_name(out, &class.pool, class.this_class)?;
    push_flags(out, class.flags.0)?;
    push_superclass(out, class)?;
    push_interfaces(out, class)?;
    push_fields(out, class)?;
    push_methods(out, class)
}

fn push_superclass(out: &mut String, class: &ClassFile) -> Result<(), OutOfMemory> {
    if class.super_class == 0 {
        return out.push_str(" -");
    }
    push_class_name(out, &class.pool, class.super_class)
}

/// Adds the superinterfaces, and ends the line.
fn push_interfaces(out: &mut String, class: &ClassFile) -> Result<(), OutOfMemory> {
    for interface in class.interfaces.as_slice() {
        let index = u16::try_from(*interface).unwrap_or(0);
        push_class_name(out, &class.pool, index)?;
    }
    out.push('\n')
}

fn push_fields(out: &mut String, class: &ClassFile) -> Result<(), OutOfMemory> {
    for field in class.fields.as_slice() {
        out.push_str("field")?;
        push_flags(out, field.flags.0)?;
        push_member(out, &class.pool, field.name, field.descriptor)?;
        out.push('\n')?;
    }
    Ok(())
}

fn push_methods(out: &mut String, class: &ClassFile) -> Result<(), OutOfMemory> {
    for method in class.methods.as_slice() {
        out.push_str("method")?;
        push_flags(out, method.flags.0)?;
        push_member(out, &class.pool, method.name, method.descriptor)?;
        out.push('\n')?;
    }
    Ok(())
}

/// Adds the words of flags, with signs between them.
fn push_flags(out: &mut String, flags: u16) -> Result<(), OutOfMemory> {
    let mut sign = ' ';
    let mut bit = 1;
    for word in WORDS.split(' ') {
        if flags & bit != 0 {
            out.push(sign)?;
            out.push_str(word)?;
            sign = '+';
        }
        bit <<= 1;
    }
    if sign == ' ' {
        return out.push_str(" 0");
    }
    Ok(())
}
