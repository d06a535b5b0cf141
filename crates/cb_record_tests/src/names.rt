// Attributes whose names the pool has, and such whose names it hasn't.
use crate::changed::{add, give_methods};
use crate::classfile::bytes_at;
use cb_classfile::{
    Body, ClassFile, Code, Constant, Field, FieldFlags, Frames, Handlers, Insn, MapFrame, MapTypes,
    Method, MethodFlags, Methods, Operand, Pool, Units, opcode, read_any_class,
};
use cb_rows::Trouble;
use cb_writer::well_formed;
use std::alloc::{AllocError, Global};

/// Whether a record with what the attribute of a name tells is well formed without the name, and with it. It is that of a file that lacks the
/// name.
pub(crate) fn tell(rt: &HostRuntime, told: &mut String, name: &str) -> Result<(), Trouble> {
    let alloc = rt.alloc();
    let file = if name == "Code" {
        "Limits.class"
    } else {
        "First.class"
    };
    let bytes = bytes_at(rt, file)?;
    match read_any_class(alloc, bytes.as_slice()) {
        Ok(mut class) => {
            let answer = push_formed(told, &mut class, alloc, name);
            drop(class);
            answer
        }
        Err(_) => Err(Trouble::Refused),
    }
}

fn units(alloc: Global, text: &str) -> Result<Units, AllocError> {
    let mut units = Units::new(alloc);
    for byte in text.as_bytes() {
        units.push(u16::from(*byte))?;
    }
    Ok(units)
}

/// Adds a text to the pool.
fn add_text(pool: &mut Pool, alloc: Global, text: &str) -> Result<(), Trouble> {
    let text = units(alloc, text)?;
    add(pool, Constant::Utf8(text))
}

/// Adds a field that has a value to `First`. Its pool has no `ConstantValue`.
fn add_value(class: &mut ClassFile, alloc: Global) -> Result<(), Trouble> {
    add_text(&mut class.pool, alloc, "I")?;
    add(&mut class.pool, Constant::Integer(7))?;
    let field = Field {
        flags: FieldFlags(0),
        name: 16,
        descriptor: 20,
        constant: Some(21),
    };
    Ok(class.fields.push(field)?)
}

/// A `return`.
fn code(alloc: Global) -> Result<Code, AllocError> {
    let mut code = Code::new(alloc);
    let insn = Insn {
        opcode: opcode::RETURN,
        wide: false,
        operand: Operand::Nothing,
    };
    code.push((0, insn))?;
    Ok(code)
}

/// A frame at the place 0 that says what the one before does.
fn frames(alloc: Global) -> Result<Frames, AllocError> {
    let frame = MapFrame {
        kind: 0,
        delta: 0,
        locals: MapTypes::new(alloc),
        stack: MapTypes::new(alloc),
    };
    let mut frames = Frames::new(alloc);
    frames.push(frame)?;
    Ok(frames)
}

/// A method with these frames.
fn method(alloc: Global, descriptor: u16, frames: Frames) -> Result<Method, AllocError> {
    let body = Body {
        max_stack: 0,
        max_locals: 1,
        code: code(alloc)?,
        handlers: Handlers::new(alloc),
        frames,
    };
    Ok(Method {
        flags: MethodFlags(0x0009),
        name: 5,
        descriptor,
        body: Some(body),
    })
}

/// Gives `First` a method with a frame alone. Its pool has no `StackMapTable`.
fn give_frame(class: &mut ClassFile, alloc: Global) -> Result<(), Trouble> {
    let method = method(alloc, 6, frames(alloc)?)?;
    give_methods(class, Methods::new(alloc));
    Ok(class.methods.push(method)?)
}

/// Gives `Limits` a method with a body. Its pool has no `Code`.
fn give_body(class: &mut ClassFile, alloc: Global) -> Result<(), Trouble> {
    add_text(&mut class.pool, alloc, "()V")?;
    let method = method(alloc, 24, Frames::new(alloc))?;
    Ok(class.methods.push(method)?)
}

/// Gives a record what the attribute of a name tells.
fn give(class: &mut ClassFile, alloc: Global, name: &str) -> Result<(), Trouble> {
    match name {
        "ConstantValue" => add_value(class, alloc),
        "StackMapTable" => give_frame(class, alloc),
        _ => give_body(class, alloc),
    }
}

/// Adds whether the record is then well formed without the name, and with it.
fn push_formed(
    out: &mut String,
    class: &mut ClassFile,
    alloc: Global,
    name: &str,
) -> Result<(), Trouble> {
    give(class, alloc, name)?;
    write!(out, "{} ", well_formed(class))?;
    add_text(&mut class.pool, alloc, name)?;
    Ok(write!(out, "{}", well_formed(class))?)
}
