// Fields and methods as lines.
ghost use Rattle.std.specs.Prelude.{◌≡◌, ◌++◌, OnOk, string_bytes};
ghost use Rattle.cb_asm_line.specs.Lines.{line_text, lines_text};
ghost use Rattle.cb_asm_line.specs.Spelling.{code_lines, field_line, method_line, method_lines, value_of};
ghost use Rattle.cb_asm_list.specs.Inner.{IsListable, behind};
ghost use Rattle.cb_asm_list.specs.Listing.{field_text, method_text};

use crate::body::push_body;
use crate::constant::push_value;
use crate::names::text as text_at;
use crate::words::{end_line, push_field_flags_word, push_method_flags_word, push_name_word};
use cb_classfile::{ClassFile, Field, Method};
use cb_plain::OutOfMemory;
use std::alloc::Global;

/// Adds the lines of a method.
pub(crate) fn push_method(
    alloc: Global,
    text: &mut String,
    class: &ClassFile,
    method: &Method,
) -> Result<(), OutOfMemory>
    requires { IsListable class.now.pool method.now }
    ensures { OnOk result (string_bytes text.new ≡ string_bytes text.old
        ++ lines_text (method_lines (method_text class.now method.now))) }
{
    push_method_line(text, class, method)?;
    push_code(alloc, text, class, method)?;
    text.push_str("end\n")
}

/// Adds the line with which a method begins.
fn push_method_line(
    text: &mut String,
    class: &ClassFile,
    method: &Method,
) -> Result<(), OutOfMemory>
    ensures { OnOk result (string_bytes text.new ≡ string_bytes text.old
        ++ line_text (method_line (method_text class.now method.now))) }
{
    text.push_str("method")?;
    push_method_flags_word(text, method.flags.0)?;
    push_name_word(text, text_at(class, method.name))?;
    push_name_word(text, text_at(class, method.descriptor))?;
    end_line(text)
}

/// Adds the lines of the code of a method, if it has any.
fn push_code(
    alloc: Global,
    text: &mut String,
    class: &ClassFile,
    method: &Method,
) -> Result<(), OutOfMemory>
    requires { IsListable class.now.pool method.now }
    ensures { OnOk result (string_bytes text.new ≡ string_bytes text.old
        ++ lines_text (code_lines (method_text class.now method.now).code)) }
{
    match &method.body {
        Some(body) => push_body(alloc, text, class, method, body),
        None => Ok(()),
    }
}

/// Adds the line of a field.
pub(crate) fn push_field(
    text: &mut String,
    class: &ClassFile,
    field: &Field,
) -> Result<(), OutOfMemory>
    ensures { OnOk result (string_bytes text.new ≡ string_bytes text.old
        ++ line_text (field_line (field_text class.now field.now))) }
{
    text.push_str("field")?;
    push_field_flags_word(text, field.flags.0)?;
    push_name_word(text, text_at(class, field.name))?;
    push_name_word(text, text_at(class, field.descriptor))?;
    push_constant(text, class, field)?;
    end_line(text)
}

/// Adds the words of the value of a field, if it has one.
fn push_constant(text: &mut String, class: &ClassFile, field: &Field) -> Result<(), OutOfMemory>
    ensures { OnOk result (string_bytes text.new ≡ string_bytes text.old
        ++ behind (value_of (field_text class.now field.now).value)) }
{
    match field.constant {
        Some(index) => push_value(text, &class.pool, index),
        None => Ok(()),
    }
}
