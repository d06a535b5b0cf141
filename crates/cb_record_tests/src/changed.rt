// Records that no bytes spell, each by one change of a record that some do.
ghost use Rattle.cb_classfile.specs.Class.{IsWellFormed};

use crate::classfile::bytes_at;
use cb_classfile::{
    Body, ClassFile, Code, Constant, Field, FieldFlags, Fields, Frames, Handler, Handlers, Insn,
    MapFrame, MapType, MapTypes, Method, MethodFlags, Methods, Operand, Pool, opcode,
    read_any_class,
};
use cb_plain::Numbers;
use cb_rows::{Trouble, number_of};
use cb_writer::{well_formed, write_class};
use std::alloc::{AllocError, Global};
use std::mem;

/// The change of a record, by what it breaks.
#[derive(Clone, Copy)]
struct Change<'a>(&'a str);

impl Change<'_> {
    /// What stands in a part, or something else where the part is changed.
    fn pick<T: Copy>(self, part: &str, good: T, other: T) -> T {
        if self.0 == part { other } else { good }
    }
}

/// Whether some bytes spell the record of `Small` with other members, made part by part, with a change, or with one method of so many `nop`.
pub(crate) fn tell(
    rt: &HostRuntime,
    told: &mut String,
    table: &str,
    row: &str,
) -> Result<(), Trouble> {
    let alloc = rt.alloc();
    let bytes = bytes_at(rt, "Small.class")?;
    match read_any_class(alloc, bytes.as_slice()) {
        Ok(mut class) => {
            let answer = tell_changed(told, alloc, &mut class, table, row);
            drop(class);
            answer
        }
        Err(_) => Err(Trouble::Refused),
    }
}

fn tell_changed(
    told: &mut String,
    alloc: Global,
    class: &mut ClassFile,
    table: &str,
    row: &str,
) -> Result<(), Trouble> {
    match table {
        "long code" => give_methods(class, long_methods(alloc, number_of(row)?)?),
        _ => change_all(class, alloc, Change(row))?,
    }
    tell_spelling(told, alloc, class)
}

/// Puts methods in the place of those of a class.
pub(crate) fn give_methods(class: &mut ClassFile, methods: Methods) {
    drop(mem::replace(&mut class.methods, methods));
}

fn change_all(class: &mut ClassFile, alloc: Global, change: Change<'_>) -> Result<(), Trouble> {
    change_classes(class, change);
    change_members(class, alloc, change)
}

fn change_classes(class: &mut ClassFile, change: Change<'_>) {
    let this_class = class.this_class;
    let super_class = class.super_class;
    class.this_class = change.pick("the class is none", this_class, 14);
    class.super_class = change.pick("Object alone has no superclass", super_class, 0);
}

fn change_members(class: &mut ClassFile, alloc: Global, change: Change<'_>) -> Result<(), Trouble> {
    let interfaces = interfaces(alloc, change)?;
    drop(mem::replace(&mut class.interfaces, interfaces));
    let fields = fields(alloc, change)?;
    drop(mem::replace(&mut class.fields, fields));
    give_methods(class, methods(alloc, change)?);
    let descriptor = change.pick("a name stands with a descriptor", 17, 16);
    add(&mut class.pool, Constant::NameAndType(16, descriptor))
}

fn interfaces(alloc: Global, change: Change<'_>) -> Result<Numbers, AllocError> {
    let mut interfaces = Numbers::new(alloc);
    interfaces.push(change.pick("an interface is a class", 7, 10))?;
    interfaces.push(change.pick("an index has two bytes", 7, 0x1_0007))?;
    Ok(interfaces)
}

fn first_field(change: Change<'_>) -> Field {
    Field {
        flags: FieldFlags(0x0018),
        name: change.pick("a field has a name", 11, 9),
        descriptor: change.pick("a field has the descriptor of a field", 12, 6),
        constant: Some(change.pick("a value is of the field's type", 14, 9)),
    }
}

fn second_field(change: Change<'_>) -> Field {
    Field {
        flags: FieldFlags(0),
        name: change.pick("a field stands once", 16, 11),
        descriptor: 12,
        constant: None,
    }
}

fn fields(alloc: Global, change: Change<'_>) -> Result<Fields, AllocError> {
    let mut fields = Fields::new(alloc);
    fields.push(first_field(change))?;
    fields.push(second_field(change))?;
    Ok(fields)
}

fn first_method(alloc: Global, change: Change<'_>) -> Result<Method, AllocError> {
    Ok(Method {
        flags: MethodFlags(change.pick("an abstract method has no code", 0x0008, 0x0400)),
        name: change.pick("a method has a name", 16, 9),
        descriptor: change.pick("a method has the descriptor of a method", 17, 12),
        body: Some(body(alloc, change)?),
    })
}

fn second_method(change: Change<'_>) -> Method {
    Method {
        flags: MethodFlags(change.pick("another has code", 0x0100, 0)),
        name: 11,
        descriptor: 6,
        body: None,
    }
}

fn methods(alloc: Global, change: Change<'_>) -> Result<Methods, AllocError> {
    let mut methods = Methods::new(alloc);
    methods.push(first_method(alloc, change)?)?;
    methods.push(second_method(change))?;
    Ok(methods)
}

fn handlers(alloc: Global, change: Change<'_>) -> Result<Handlers, AllocError> {
    let handler = Handler {
        start: change.pick("a handler covers something", 0, 4),
        end: change.pick("a handler's end is a place", 4, 9),
        handler: change.pick("a handler begins an instruction", 5, 2),
        catch_type: change.pick("a handler catches a class", 7, 11),
    };
    let mut handlers = Handlers::new(alloc);
    handlers.push(handler)?;
    Ok(handlers)
}

fn body(alloc: Global, change: Change<'_>) -> Result<Body, AllocError> {
    Ok(Body {
        max_stack: 2,
        max_locals: 2,
        code: code(alloc, change)?,
        handlers: handlers(alloc, change)?,
        frames: frames(alloc, change)?,
    })
}

fn load(change: Change<'_>) -> Insn {
    Insn {
        opcode: opcode::LDC,
        wide: change.pick("an operand has the form of its opcode", false, true),
        operand: Operand::Pool(change.pick("an instruction loads what is loaded", 14, 3)),
    }
}

/// Adds instructions that are their opcodes alone, from a place on.
fn push_plain(code: &mut Code, first: u32, opcodes: &[u8]) -> Result<(), AllocError> {
    let mut place = first;
    for opcode in opcodes {
        code.push((place, plain(*opcode)))?;
        place = place.wrapping_add(1);
    }
    Ok(())
}

/// What stands behind the second instruction.
const REST: [u8; 5] = [
    opcode::IDIV,
    opcode::IRETURN,
    opcode::ASTORE_1,
    opcode::ICONST_0,
    opcode::IRETURN,
];

/// Adds `iload_0; ldc 70000; idiv; ireturn; astore_1; iconst_0; ireturn`.
fn push_code(code: &mut Code, change: Change<'_>) -> Result<(), AllocError> {
    let second = change.pick("instructions stand one behind the other", 1, 2);
    code.push((0, plain(opcode::ILOAD_0)))?;
    code.push((second, load(change)))?;
    push_plain(code, 3, REST.as_slice())
}

fn code(alloc: Global, change: Change<'_>) -> Result<Code, AllocError> {
    let mut code = Code::new(alloc);
    if change.0 != "code has bytes" {
        push_code(&mut code, change)?;
    }
    Ok(code)
}

/// An instruction that is its opcode alone.
fn plain(opcode: u8) -> Insn {
    Insn {
        opcode,
        wide: false,
        operand: Operand::Nothing,
    }
}

fn stack(alloc: Global, change: Change<'_>) -> Result<MapTypes, AllocError> {
    let mut stack = MapTypes::new(alloc);
    stack.push(MapType::Object(change.pick("a type names a class", 7, 11)))?;
    Ok(stack)
}

/// The stack has the fault alone where the handler begins.
fn frame(alloc: Global, change: Change<'_>) -> Result<MapFrame, AllocError> {
    Ok(MapFrame {
        kind: change.pick("a frame's kind has a form", 69, 128),
        delta: change.pick("a frame has its kind's delta", 5, 6),
        locals: MapTypes::new(alloc),
        stack: stack(alloc, change)?,
    })
}

fn frames(alloc: Global, change: Change<'_>) -> Result<Frames, AllocError> {
    let mut frames = Frames::new(alloc);
    frames.push(frame(alloc, change)?)?;
    Ok(frames)
}

/// Whether some bytes spell a record, and how many methods they have.
fn tell_spelling(told: &mut String, alloc: Global, class: &ClassFile) -> Result<(), Trouble> {
    if !well_formed(class) {
        return Ok(told.push_str("no bytes")?);
    }
    let methods = methods_again(alloc, class)?;
    Ok(write!(told, "bytes with {methods} methods")?)
}

/// How many methods the record of the bytes has that spell a record.
fn methods_again(alloc: Global, class: &ClassFile) -> Result<usize, Trouble>
    requires { IsWellFormed class.now }
{
    let bytes = write_class(alloc, class)?;
    match read_any_class(alloc, bytes.as_slice()) {
        Ok(again) => {
            let count = again.methods.len();
            drop(again);
            Ok(count)
        }
        Err(_) => Err(Trouble::Refused),
    }
}

/// Adds so many `nop` and a `return`.
fn push_nops(code: &mut Code, count: u32) -> Result<(), AllocError> {
    for place in 0..count {
        code.push((place, plain(opcode::NOP)))?;
    }
    code.push((count, plain(opcode::RETURN)))
}

fn nops(alloc: Global, count: u32) -> Result<Code, AllocError> {
    let mut code = Code::new(alloc);
    push_nops(&mut code, count)?;
    Ok(code)
}

/// One method of that code, which has neither handlers nor frames.
fn long_method(alloc: Global, count: u32) -> Result<Method, AllocError> {
    let body = Body {
        max_stack: 0,
        max_locals: 1,
        code: nops(alloc, count)?,
        handlers: Handlers::new(alloc),
        frames: Frames::new(alloc),
    };
    Ok(Method {
        flags: MethodFlags(0),
        name: 16,
        descriptor: 6,
        body: Some(body),
    })
}

fn long_methods(alloc: Global, count: u32) -> Result<Methods, AllocError> {
    let mut methods = Methods::new(alloc);
    methods.push(long_method(alloc, count)?)?;
    Ok(methods)
}

/// Adds a constant that the pool admits.
pub(crate) fn add(pool: &mut Pool, constant: Constant) -> Result<(), Trouble> {
    if !pool.admits(&constant) {
        return Err(Trouble::Refused);
    }
    pool.push(constant)?;
    Ok(())
}
