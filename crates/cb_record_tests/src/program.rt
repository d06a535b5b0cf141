// Programs and their records, and programs that have none.
use crate::record::push_record;
use cb_asm_line::{CodeText, FrameLine, MethodText, Program, Statement, read_line};
use cb_asm_record::record;
use cb_classfile::ClassFile;
use cb_plain::List;
use cb_rows::Trouble;
use cb_text::Units;
use std::alloc::{AllocError, Global};

/// What the class of the tests has, and what its method has up to a jump.
const MEMBERS: &str = "implements B/field static+final F J long 7/L1:/ldc text \"hi\"/L2:/\
    invokeinterface interface B f (J[JLJ;I)V";

fn units(alloc: Global, text: &str) -> Result<Units, AllocError> {
    let mut units = Units::new(alloc);
    for byte in text.as_bytes() {
        units.push(u16::from(*byte))?;
    }
    Ok(units)
}

/// A class `A` below `O`, without members.
fn class(alloc: Global) -> Result<Program, AllocError> {
    Ok(Program {
        major: 50,
        flags: 0x21,
        name: units(alloc, "A")?,
        superclass: Some(units(alloc, "O")?),
        interfaces: List::new(alloc),
        fields: List::new(alloc),
        methods: List::new(alloc),
    })
}

fn no_code(alloc: Global) -> CodeText {
    CodeText {
        stack: 2,
        locals: 1,
        lines: List::new(alloc),
        catches: List::new(alloc),
        frames: List::new(alloc),
    }
}

/// A method `m` of this code.
fn method(alloc: Global, code: CodeText) -> Result<MethodText, AllocError> {
    Ok(MethodText {
        flags: 0x01,
        name: units(alloc, "m")?,
        descriptor: units(alloc, "()V")?,
        code: Some(code),
    })
}

/// Adds what a line says to the class or to the code of its method.
fn add(program: &mut Program, code: &mut CodeText, statement: Statement) -> Result<(), AllocError> {
    match statement {
        Statement::Implements(name) => program.interfaces.push(name),
        Statement::Field(field) => program.fields.push(field),
        Statement::Code(line) => code.lines.push(line),
        Statement::Catch(entry) => code.catches.push(entry),
        Statement::Frame(frame) => code.frames.push(FrameLine::Full(frame)),
        _ => Ok(()),
    }
}

/// Adds what a line says.
fn add_line(
    program: &mut Program,
    code: &mut CodeText,
    alloc: Global,
    line: &str,
) -> Result<(), Trouble> {
    let statement = read_line(alloc, line.as_bytes())?.ok_or(Trouble::NotUnderstood)?;
    Ok(add(program, code, statement)?)
}

/// Adds what the lines of texts say, between which there are slashes.
fn add_lines(
    program: &mut Program,
    code: &mut CodeText,
    alloc: Global,
    texts: &[&str],
) -> Result<(), Trouble> {
    for text in texts {
        for line in text.split('/') {
            add_line(program, code, alloc, line)?;
        }
    }
    Ok(())
}

/// Adds members, with a method of the code that the lines have behind those above.
fn add_members(program: &mut Program, alloc: Global, lines: &str) -> Result<(), Trouble> {
    let mut code = no_code(alloc);
    match add_lines(program, &mut code, alloc, &[MEMBERS, lines]) {
        Ok(()) => Ok(program.methods.push(method(alloc, code)?)?),
        Err(trouble) => {
            drop(code);
            Err(trouble)
        }
    }
}

fn program(alloc: Global, lines: &str) -> Result<Program, Trouble> {
    let mut program = class(alloc)?;
    match add_members(&mut program, alloc, lines) {
        Ok(()) => Ok(program),
        Err(trouble) => {
            drop(program);
            Err(trouble)
        }
    }
}

/// Adds a line for the indices of the class, its superclass and interfaces, and for the fields and the long at the index 10.
fn push_indices(out: &mut String, class: &ClassFile) -> Result<(), AllocError> {
    let interfaces = class.interfaces.as_slice();
    let fields = class.fields.as_slice();
    let this_class = class.this_class;
    let super_class = class.super_class;
    writeln!(out, "{this_class} {super_class} {interfaces:?} {fields:?}")?;
    writeln!(out, "{:?}", class.pool.long(10))
}

/// Adds a line for the indices of each method's name and descriptor.
fn push_methods(out: &mut String, class: &ClassFile) -> Result<(), AllocError> {
    for method in class.methods.as_slice() {
        writeln!(out, "{} {}", method.name, method.descriptor)?;
    }
    Ok(())
}

/// Adds the record, and the indices in it.
fn push_class(out: &mut String, class: &ClassFile) -> Result<(), AllocError> {
    push_record(out, class)?;
    push_indices(out, class)?;
    push_methods(out, class)
}

/// The record of the class with the lines of a row, line by line.
pub(crate) fn tell(alloc: Global, told: &mut String, row: &str) -> Result<(), Trouble> {
    let program = program(alloc, row)?;
    let class = record(alloc, &program);
    drop(program);
    match class? {
        Some(class) => {
            let pushed = push_class(told, &class);
            drop(class);
            Ok(pushed?)
        }
        None => Ok(told.push_str("no record")?),
    }
}
