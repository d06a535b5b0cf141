// Records of classes as texts, with what `javap -v -p` prints of them.
use crate::texts::{push_class_name, push_member};
use cb_classfile::{Body, ClassFile, Field, Handler, MapFrame, MapType, Method, Pool};
use cb_insn::{Insn, Operand, Pair};
use std::alloc::AllocError;

/// Adds a line for the version and the count of the constant pool, the class, each superinterface, field and method, and for
/// the code, each handler and each frame of a method. Flags and opcodes are hexadecimal.
pub(crate) fn push_record(out: &mut String, class: &ClassFile) -> Result<(), AllocError> {
    push_version(out, class)?;
    push_class(out, class)?;
    push_interfaces(out, class)?;
    push_fields(out, class)?;
    push_methods(out, class)
}

fn push_version(out: &mut String, class: &ClassFile) -> Result<(), AllocError> {
    let major = class.major;
    let minor = class.minor;
    let count = class.pool.len();
    writeln!(out, "version {major}.{minor} pool {count}")
}

fn push_class(out: &mut String, class: &ClassFile) -> Result<(), AllocError> {
    write!(out, "class {:04X}", class.flags.0)?;
    push_class_name(out, &class.pool, class.this_class)?;
    push_class_name(out, &class.pool, class.super_class)?;
    out.push('\n')
}

fn push_interfaces(out: &mut String, class: &ClassFile) -> Result<(), AllocError> {
    for interface in class.interfaces.as_slice() {
        out.push_str("implements")?;
        push_class_name(out, &class.pool, u16::try_from(*interface).unwrap_or(0))?;
        out.push('\n')?;
    }
    Ok(())
}

fn push_fields(out: &mut String, class: &ClassFile) -> Result<(), AllocError> {
    for field in class.fields.as_slice() {
        push_field(out, &class.pool, field)?;
    }
    Ok(())
}

fn push_field(out: &mut String, pool: &Pool, field: &Field) -> Result<(), AllocError> {
    write!(out, "field {:04X}", field.flags.0)?;
    push_member(out, pool, field.name, field.descriptor)?;
    push_number(out, field.constant.map(i64::from))?;
    out.push('\n')
}

fn push_methods(out: &mut String, class: &ClassFile) -> Result<(), AllocError> {
    for method in class.methods.as_slice() {
        push_method(out, &class.pool, method)?;
    }
    Ok(())
}

fn push_method(out: &mut String, pool: &Pool, method: &Method) -> Result<(), AllocError> {
    write!(out, "method {:04X}", method.flags.0)?;
    push_member(out, pool, method.name, method.descriptor)?;
    out.push('\n')?;
    match &method.body {
        Some(body) => push_body(out, pool, body),
        None => Ok(()),
    }
}

fn push_body(out: &mut String, pool: &Pool, body: &Body) -> Result<(), AllocError> {
    push_code(out, body)?;
    push_handlers(out, pool, body)?;
    push_frames(out, pool, body)
}

fn push_code(out: &mut String, body: &Body) -> Result<(), AllocError> {
    let stack = body.max_stack;
    let locals = body.max_locals;
    write!(out, "code {stack} {locals}:")?;
    for (place, insn) in body.code.as_slice() {
        push_insn(out, *place, insn)?;
    }
    out.push('\n')
}

/// Adds the place, the opcode and the numbers of the operand. Those of a switch stand in the order of the file, and targets
/// are places.
fn push_insn(out: &mut String, place: u32, insn: &Insn) -> Result<(), AllocError> {
    let opcode = insn.opcode;
    let (first, second) = numbers(&insn.operand);
    write!(out, " {place} {opcode:02X}")?;
    push_number(out, first)?;
    push_number(out, second)?;
    push_switch(out, &insn.operand)?;
    out.push(',')
}

/// Adds the targets of a switch.
fn push_switch(out: &mut String, operand: &Operand) -> Result<(), AllocError> {
    match operand {
        Operand::Table { targets, .. } => push_targets(out, targets.as_slice()),
        Operand::Lookup { pairs, .. } => push_pairs(out, pairs.as_slice()),
        _ => Ok(()),
    }
}

fn push_targets(out: &mut String, targets: &[u32]) -> Result<(), AllocError> {
    for target in targets {
        write!(out, " {target}")?;
    }
    Ok(())
}

fn push_pairs(out: &mut String, pairs: &[Pair]) -> Result<(), AllocError> {
    for pair in pairs {
        write!(out, " {} {}", pair.key, pair.target)?;
    }
    Ok(())
}

/// The first numbers of an operand.
fn numbers(operand: &Operand) -> (Option<i64>, Option<i64>) {
    match operand {
        Operand::Nothing => (None, None),
        Operand::Number(number) => (Some(i64::from(*number)), None),
        Operand::Pool(index) => (Some(i64::from(*index)), None),
        Operand::Local(local) => (Some(i64::from(*local)), None),
        Operand::Increase { local, by } => (Some(i64::from(*local)), Some(i64::from(*by))),
        Operand::Branch(target) => (Some(i64::from(*target)), None),
        Operand::ArrayCode(code) => (Some(i64::from(*code)), None),
        Operand::Dimensions { pool, dimensions } => {
            (Some(i64::from(*pool)), Some(i64::from(*dimensions)))
        }
        Operand::Interface { pool, count } => (Some(i64::from(*pool)), Some(i64::from(*count))),
        Operand::Table { default, low, .. } => (Some(i64::from(*default)), Some(i64::from(*low))),
        Operand::Lookup { default, .. } => (Some(i64::from(*default)), None),
    }
}

/// Adds a number, if there is one.
fn push_number(out: &mut String, number: Option<i64>) -> Result<(), AllocError> {
    match number {
        Some(number) => write!(out, " {number}"),
        None => Ok(()),
    }
}

fn push_handlers(out: &mut String, pool: &Pool, body: &Body) -> Result<(), AllocError> {
    for handler in body.handlers.as_slice() {
        push_handler(out, pool, *handler)?;
    }
    Ok(())
}

fn push_handler(out: &mut String, pool: &Pool, entry: Handler) -> Result<(), AllocError> {
    let Handler {
        start,
        end,
        handler,
        catch_type,
    } = entry;
    write!(out, "handler {start} {end} {handler}")?;
    if catch_type == 0 {
        return out.push_str(" any\n");
    }
    push_class_name(out, pool, catch_type)?;
    out.push('\n')
}

fn push_frames(out: &mut String, pool: &Pool, body: &Body) -> Result<(), AllocError> {
    for frame in body.frames.as_slice() {
        push_frame(out, pool, frame)?;
    }
    Ok(())
}

fn push_frame(out: &mut String, pool: &Pool, frame: &MapFrame) -> Result<(), AllocError> {
    let kind = frame.kind;
    let delta = frame.delta;
    write!(out, "frame {kind} {delta}")?;
    push_types(out, pool, frame.locals.as_slice())?;
    push_types(out, pool, frame.stack.as_slice())?;
    out.push('\n')
}

/// Adds types between brackets.
fn push_types(out: &mut String, pool: &Pool, kinds: &[MapType]) -> Result<(), AllocError> {
    out.push_str(" [")?;
    for kind in kinds {
        push_type(out, pool, *kind)?;
    }
    out.push_str(" ]")
}

fn push_type(out: &mut String, pool: &Pool, kind: MapType) -> Result<(), AllocError> {
    match kind {
        MapType::Integer => out.push_str(" int"),
        MapType::Object(index) => {
            out.push_str(" class")?;
            push_class_name(out, pool, index)
        }
        _ => write!(out, " {kind:?}"),
    }
}
