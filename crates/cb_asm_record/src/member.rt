// Fields and methods.
ghost use Rattle.std.specs.Prelude.{◌≡◌, IfOk, IfSome, map, option_map};
ghost use Rattle.std.specs.List.{AllByRecursion};
ghost use Rattle.cb_asm_record.specs.Constants.{index_of};
ghost use Rattle.cb_asm_record.specs.Entries.{value_entry};
ghost use Rattle.cb_asm_record.specs.Inner.{HasBody, Makes, MethodHasBody};
ghost use Rattle.cb_asm_record.specs.Record.{body_of, field_of, method_of};

use crate::body::body_of;
use crate::constants::Constants;
use crate::key::value_key;
use crate::stop::Stop;
use cb_asm_line::{CodeText, FieldText, MethodText, Value};
use cb_classfile::{Body, Field, FieldFlags, Fields, Method, MethodFlags, Methods};
use cb_plain::OutOfMemory;
use std::alloc::Global;

/// The fields of a class.
pub(crate) fn fields_of<'a>(
    alloc: Global,
    constants: &Constants<'a>,
    texts: &'a [FieldText],
) -> Result<Fields, OutOfMemory>
    ensures { IfOk result (λ fields. fields ≡ map (field_of constants.now) texts.now) }
{
    let mut fields = Fields::with_capacity(alloc, texts.len())?;
    for text in texts {
        let field = field_of(constants, text);
        fields.push(field)?;
    }
    Ok(fields)
}

/// A field.
fn field_of<'a>(constants: &Constants<'a>, text: &'a FieldText) -> Field
    ensures { result ≡ field_of constants.now text.now }
{
    Field {
        flags: FieldFlags(text.flags),
        name: constants.text(&text.name),
        descriptor: constants.text(&text.descriptor),
        constant: constant_of(constants, &text.value),
    }
}

/// The index of a field's value, if it has one.
fn constant_of<'a>(constants: &Constants<'a>, value: &'a Option<Value>) -> Option<u16>
    ensures { result ≡ option_map (λ value. index_of constants.now (value_entry value)) value.now }
{
    match value {
        Some(value) => Some(constants.index(value_key(value))),
        None => None,
    }
}

/// The methods of a class. `NoRecord` where the code of one has no body.
pub(crate) fn methods_of<'a>(
    alloc: Global,
    constants: &Constants<'a>,
    texts: &'a [MethodText],
) -> Result<Methods, Stop>
    ensures { Makes (map (method_of constants.now) texts.now) (AllByRecursion MethodHasBody texts.now) result }
{
    let mut methods = Methods::with_capacity(alloc, texts.len())?;
    for text in texts {
        let method = method_of(alloc, constants, text)?;
        methods.push(method)?;
    }
    Ok(methods)
}

/// A method.
fn method_of<'a>(
    alloc: Global,
    constants: &Constants<'a>,
    text: &'a MethodText,
) -> Result<Method, Stop>
    ensures { Makes (method_of constants.now text.now) (MethodHasBody text.now) result }
{
    let body = optional_body(alloc, constants, &text.code)?;
    Ok(Method {
        flags: MethodFlags(text.flags),
        name: constants.text(&text.name),
        descriptor: constants.text(&text.descriptor),
        body,
    })
}

/// The body of a method, if it has code.
fn optional_body<'a>(
    alloc: Global,
    constants: &Constants<'a>,
    code: &'a Option<CodeText>,
) -> Result<Option<Body>, Stop>
    ensures { Makes (option_map (body_of constants.now) code.now) (IfSome code.now HasBody) result }
{
    match code {
        Some(code) => {
            let body = body_of(alloc, constants, code)?;
            Ok(Some(body))
        }
        None => Ok(None),
    }
}
