// The locals at the start of a method (JVMS §4.10.1.6).
ghost use Rattle.std.specs.Prelude.{◌≡◌, ◌++◌, [], ◌∷◌, IfOk, OnOk, map, nat_eq};
ghost use Rattle.std.specs.Cmp.Lexicographic.{pointwise};
ghost use Rattle.cb_asm_line.specs.Parameters.{parameters_of};
ghost use Rattle.cb_asm_list.specs.Expansion.{class_named, element_type as type_of_element, parameter_type as type_of_parameter, start_types as types_at_start, text_named, this_type as type_of_this, this_types};
ghost use Rattle.cb_classfile.specs.Pool.{HasText, IsAnyMethodDescriptor};
ghost use Rattle.cb_names.specs.Types.{element_of, element_text, letter_of, type_of, type_text};
ghost use Rattle.cb_names.specs.Signs.{letter_class, semicolon};

use crate::frame_types::{Types, copy_of_units, push_units};
use crate::names::{class_name, text};
use bitflags::Flags;
use cb_asm_line::{FrameType, parameters_spelled};
use cb_classfile::{ClassFile, Method, MethodFlags, Units};
use cb_names::{BaseType, ElementType, FieldType, MethodType, method_type};
use cb_plain::OutOfMemory;
use std::alloc::Global;

/// The locals at the start of a method, or `None` where a parameter has a type without words. Takes time in the length of
/// its descriptor.
#[tactic(auto, using(crate::proofs::AllOf::gathered, crate::proofs::AllOf::missed, crate::proofs::AllOf::all_there))]
pub(crate) fn start_types(
    alloc: Global,
    class: &ClassFile,
    method: &Method,
) -> Result<Option<Types>, OutOfMemory>
    requires { HasText class.now.pool method.now.descriptor IsAnyMethodDescriptor }
    ensures { IfOk result (λ found. found ≡ types_at_start class.now method.now) }
{
    let mut types = this_in(alloc, class, method)?;
    let parameters = parameters_in(alloc, class, method)?;
    for parameter in parameters.as_slice() {
        match parameter_type(alloc, *parameter)? {
            Some(kind) => types.push(kind)?,
            None => return Ok(None),
        }
    }
    Ok(Some(types))
}

/// The types before those of the parameters: that of `this`, which a static method hasn't.
fn this_in(alloc: Global, class: &ClassFile, method: &Method) -> Result<Types, OutOfMemory>
    ensures { IfOk result (λ types. types
        ≡ this_types method.now.flags.0 (class_named class.now class.now.this_class) (text_named class.now method.now.name)) }
{
    let mut types = Types::new(alloc);
    if !method.flags.contains(MethodFlags::STATIC) {
        let class_name = class_name(class, class.this_class);
        let method_name = text(class, method.name);
        types.push(this_type(alloc, class_name, method_name)?)?;
    }
    Ok(types)
}

/// The type of `this` in a method.
fn this_type(alloc: Global, class: &[u16], method: &[u16]) -> Result<FrameType<u32>, OutOfMemory>
    ensures { IfOk result (λ kind. kind ≡ type_of_this class.now method.now) }
{
    if is_spelled(method, b"<init>") && !is_spelled(class, b"java/lang/Object") {
        Ok(FrameType::This)
    } else {
        Ok(FrameType::Object(copy_of_units(alloc, class)?))
    }
}

/// Whether units are those of an ASCII text.
fn is_spelled(units: &[u16], text: &[u8]) -> bool
    ensures { result ≡ pointwise nat_eq units.now text.now }
{
    let mut left = units;
    let mut right = text;
    while let ([unit, units @ ..], [byte, text @ ..]) = (left, right) {
        if *unit != u16::from(*byte) {
            return false;
        }
        left = units;
        right = text;
    }
    left.is_empty() && right.is_empty()
}

/// The types of the parameters of a method.
fn parameters_in<'a>(
    alloc: Global,
    class: &'a ClassFile,
    method: &Method,
) -> Result<Vec<FieldType<'a>>, OutOfMemory>
    requires { HasText class.now.pool method.now.descriptor IsAnyMethodDescriptor }
    ensures { IfOk result (λ types. map type_of types.items ≡ parameters_of (text_named class.now method.now.descriptor)) }
{
    parameters_spelled();
    match method_type(alloc, text(class, method.descriptor))? {
        Some(MethodType { parameters, .. }) => Ok(parameters),
        None => unreachable!(),
    }
}

/// The type of a parameter, or `None` where it has no words.
fn parameter_type(
    alloc: Global,
    parameter: FieldType<'_>,
) -> Result<Option<FrameType<u32>>, OutOfMemory>
    ensures { IfOk result (λ found. found ≡ type_of_parameter (type_of parameter.entry)) }
{
    if parameter.dimensions == 0 {
        element_type(alloc, parameter.element)
    } else {
        Ok(Some(FrameType::Object(descriptor_of(alloc, parameter)?)))
    }
}

/// The type of a parameter that is no array, or `None` where it has no words.
fn element_type(
    alloc: Global,
    element: ElementType<'_>,
) -> Result<Option<FrameType<u32>>, OutOfMemory>
    ensures { IfOk result (λ found. found ≡ type_of_element (element_of element.entry)) }
{
    match element {
        ElementType::Base(BaseType::Long) => Ok(Some(FrameType::Long)),
        ElementType::Base(BaseType::Float | BaseType::Double) => Ok(None),
        ElementType::Base(_) => Ok(Some(FrameType::Int)),
        ElementType::Class(name) => Ok(Some(FrameType::Object(copy_of_units(alloc, name)?))),
    }
}

/// The descriptor of a type.
fn descriptor_of(alloc: Global, kind: FieldType<'_>) -> Result<Units, OutOfMemory>
    ensures { IfOk result (λ units. units ≡ type_text (type_of kind.entry)) }
{
    let mut units = Units::new(alloc);
    for _dimension in 0..kind.dimensions {
        units.push(BRACKET)?;
    }
    push_element(&mut units, kind.element)?;
    Ok(units)
}

/// Adds the descriptor of an element of arrays.
fn push_element(units: &mut Units, element: ElementType<'_>) -> Result<(), OutOfMemory>
    ensures { OnOk result (units.new ≡ units.old ++ element_text (element_of element.entry)) }
{
    match element {
        ElementType::Base(base) => units.push(letter(base)),
        ElementType::Class(name) => push_class(units, name),
    }
}

/// Adds the descriptor of a class.
fn push_class(units: &mut Units, name: &[u16]) -> Result<(), OutOfMemory>
    ensures { OnOk result (units.new ≡ units.old ++ letter_class ∷ name.now ++ semicolon ∷ []) }
{
    units.push(CLASS)?;
    push_units(units, name)?;
    units.push(SEMICOLON)
}

/// The letter of a base type.
fn letter(base: BaseType) -> u16
    ensures { result ≡ letter_of base }
{
    let letter = match base {
        BaseType::Byte => b'B',
        BaseType::Char => b'C',
        BaseType::Double => b'D',
        BaseType::Float => b'F',
        BaseType::Int => b'I',
        BaseType::Long => b'J',
        BaseType::Short => b'S',
        BaseType::Boolean => b'Z',
    };
    u16::from(letter)
}

const BRACKET: u16 = b'[' as u16;

const CLASS: u16 = b'L' as u16;

const SEMICOLON: u16 = b';' as u16;
