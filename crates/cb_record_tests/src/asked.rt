// What the layers above ask of records and of their constants.
ghost use Rattle.std.specs.Prelude.{◌≡◌};

use crate::given::{SE_8, file_of};
use cb_classfile::{
    ClassFile, Constants, Method, call_classes, do_differ, facts_of, form_of_frame, have_constants,
    is_class, is_method, is_value_of, kind_needed, read_any_class, unsupported, unsupported_in,
};
use cb_rows::{Trouble, number_of};
use cb_text::Constant;
use std::alloc::{AllocError, Global};

pub(crate) fn tell(
    alloc: Global,
    told: &mut String,
    table: &str,
    row: &str,
) -> Result<(), Trouble> {
    match table {
        "forms of frames" => Ok(write!(told, "{:?}", form_of_frame(number_of(row)?))?),
        "needed" => {
            let opcode = u8::from_str_radix(row, 16).map_err(|_| Trouble::NotUnderstood)?;
            Ok(write!(told, "{:?}", kind_needed(opcode))?)
        }
        "constants" => tell_of_class(told, alloc, table, table, row),
        _ => tell_of_class(told, alloc, table, "methods", row),
    }
}

/// What is asked of the class with a part.
fn tell_of_class(
    told: &mut String,
    alloc: Global,
    table: &str,
    parts: &str,
    part: &str,
) -> Result<(), Trouble> {
    let class = class_of(alloc, parts, part)?;
    let answer = tell_by(told, alloc, table, &class);
    drop(class);
    answer
}

/// The record of the class with a part.
fn class_of(alloc: Global, parts: &str, part: &str) -> Result<ClassFile, Trouble> {
    let bytes = file_of(alloc, SE_8, parts, part)?;
    match read_any_class(alloc, bytes.as_slice()) {
        Ok(class) => Ok(class),
        Err(_) => Err(Trouble::Refused),
    }
}

/// Adds what this machine leaves out of a class, asked without and with a table of its texts, and whether it is a class, asked so.
fn tell_left_out(
    out: &mut String,
    described: &Constants<'_>,
    class: &ClassFile,
) -> Result<(), AllocError>
    requires { class.now.pool ≡ described.now }
{
    let left_out = (unsupported(class), unsupported_in(described, class));
    let constants = Constants::new(&class.pool);
    let are_classes = (is_class(&constants, class), is_class(described, class));
    write!(out, "{left_out:?} {are_classes:?}")
}

/// Adds the name of a class, and the length of its superclass's.
fn tell_superclass(out: &mut String, class: &ClassFile) -> Result<(), AllocError> {
    let superclass = class.superclass().map(|name| name.len());
    write!(out, " {:?} {superclass:?}", class.name())
}

fn tell_class(out: &mut String, alloc: Global, class: &ClassFile) -> Result<(), Trouble> {
    let facts = facts_of(alloc, &class.pool)?;
    let described = Constants::described(&class.pool, &facts);
    tell_left_out(out, &described, class)?;
    Ok(tell_superclass(out, class)?)
}

/// Adds a line for a method: whether it keeps the rules, and whether its code does.
fn tell_method(
    out: &mut String,
    constants: &Constants<'_>,
    method: &Method,
) -> Result<(), AllocError> {
    let is_method = is_method(constants, method);
    let Some(body) = &method.body else {
        return writeln!(out, "method {is_method}");
    };
    let have = have_constants(constants, body.code.as_slice());
    let call = call_classes(constants, body.code.as_slice());
    writeln!(out, "method {is_method} code {have} {call}")
}

/// Adds a line for each method, behind whether all differ.
fn tell_methods(
    out: &mut String,
    constants: &Constants<'_>,
    methods: &[Method],
) -> Result<(), AllocError> {
    writeln!(out, "differ {}", do_differ(constants, methods))?;
    for method in methods {
        tell_method(out, constants, method)?;
    }
    Ok(())
}

/// Adds a line for a text: whether `f` may be a field and a method of it, and its words.
fn tell_text(out: &mut String, constants: &Constants<'_>, index: u16) -> Result<(), AllocError> {
    let field = constants.names_field(5, index);
    let method = constants.names_method(5, index);
    let words = constants.parameter_words(index);
    writeln!(out, "{index:02X} {field} {method} {words:?}")
}

/// The texts that are asked, and two indices that have none.
const TEXTS: [u16; 10] = [0x06, 0x0A, 0x17, 0x1A, 0x21, 0x25, 0x27, 0x2C, 0x02, 0x2D];

fn tell_texts(out: &mut String, constants: &Constants<'_>) -> Result<(), AllocError> {
    for index in TEXTS {
        tell_text(out, constants, index)?;
    }
    Ok(())
}

/// Adds a line for a name: whether a field of `I` and a method of `()V` may have it.
fn tell_name(out: &mut String, constants: &Constants<'_>, name: u16) -> Result<(), AllocError> {
    let field = constants.names_field(name, 0x0A);
    let method = constants.names_method(name, 0x06);
    writeln!(out, "{name:02X} {field} {method}")
}

/// Adds whether there is a class at two indices, and whether each constant names what it says.
fn tell_classes(out: &mut String, constants: &Constants<'_>) -> Result<(), AllocError> {
    let class = constants.is_class(0x02);
    let array = constants.is_class(0x18);
    writeln!(out, "class {class} {array} named {}", constants.are_named())
}

/// Adds whether a short and a long are of an Integer.
fn tell_values(out: &mut String, constants: &Constants<'_>) -> Result<(), AllocError> {
    let one = Constant::Integer(1);
    let short = is_value_of(constants, 0x1C, &one);
    let long = is_value_of(constants, 0x1A, &one);
    writeln!(out, "values {short} {long}")
}

/// Adds all that is asked of constants and of methods that have them. The names are `<init>` and `<x>`.
fn tell_all(
    out: &mut String,
    constants: &Constants<'_>,
    methods: &[Method],
) -> Result<(), AllocError> {
    tell_methods(out, constants, methods)?;
    tell_texts(out, constants)?;
    tell_name(out, constants, 0x15)?;
    tell_name(out, constants, 0x22)?;
    tell_classes(out, constants)?;
    tell_values(out, constants)
}

/// Adds what is told of a class, or of its constants and methods: asked without a table of its texts and with one. Or the names of its methods.
fn tell_by(out: &mut String, alloc: Global, way: &str, class: &ClassFile) -> Result<(), Trouble> {
    match way {
        "constants" => tell_class(out, alloc, class),
        "members" => Ok(tell_members(out, class)?),
        "members by a table of texts" => Ok(tell_described(out, alloc, class)?),
        "names of methods" => Ok(push_names(out, class)?),
        _ => Err(Trouble::NotUnderstood),
    }
}

fn tell_members(out: &mut String, class: &ClassFile) -> Result<(), AllocError> {
    let constants = Constants::new(&class.pool);
    tell_all(out, &constants, class.methods.as_slice())
}

fn tell_described(out: &mut String, alloc: Global, class: &ClassFile) -> Result<(), AllocError> {
    let facts = facts_of(alloc, &class.pool)?;
    let constants = Constants::described(&class.pool, &facts);
    tell_all(out, &constants, class.methods.as_slice())
}

/// Adds the names of methods.
fn push_names(out: &mut String, class: &ClassFile) -> Result<(), AllocError> {
    for method in class.methods.as_slice() {
        let name = class.method_names(method).map(|names| names.name);
        write!(out, "{name:?} ")?;
    }
    Ok(())
}
