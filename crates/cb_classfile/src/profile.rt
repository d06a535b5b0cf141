// What this machine leaves out of class files, in the order in which it is looked for.
ghost use Rattle.std.specs.Prelude.{◌≡◌, ◌++◌, map, option_and_then, List as Items, Option as Maybe};
ghost use Rattle.cb_text.specs.Pool.{constant_at};
ghost use Rattle.cb_text.specs.declared.constant.Constant.{Constant as AnyConstant};
ghost use Rattle.cb_classfile.specs.Pool.{text_at};
ghost use Rattle.cb_classfile.specs.Profile.{first_of, feature_of, is_float, is_double, opcode_item, operand_item, body_items, class_item, constant_item, descriptor_item_at, is_finalizer, method_item, unsupported};
ghost use Rattle.cb_classfile.specs.declared.feature.Feature.{Feature as AnyFeature};

use crate::ascii::has_text;
use crate::constants::Constants;
use crate::{Body, ClassFile, Feature, Field, MapFrame, MapType, Method, MethodFlags, array_code};
use bitflags::Flags;
use cb_insn::{Insn, Operand, opcode};
use cb_names::Floating;
use cb_text::Constant;

/// `[`, with which the name of an array type begins (JVMS §4.4.1).
const BRACKET: u16 = b'[' as u16;

/// `java/lang/ref/`, with which the names of the classes of reference objects begin.
const REFERENCES: &[u16] = &[
    0x6A, 0x61, 0x76, 0x61, 0x2F, 0x6C, 0x61, 0x6E, 0x67, 0x2F, 0x72, 0x65, 0x66, 0x2F,
];

/// The first item of a class that this machine leaves out, if there is one: in its pool by index, in its fields'
/// descriptors, and in its methods. Takes no memory, and time in the number of constants, fields, frame types and
/// instructions and in the length of the descriptors, each as often as it is named.
pub fn unsupported(class: &ClassFile) -> Option<Feature>
    ensures { result ≡ unsupported class.now }
{
    unsupported_in(&Constants::new(&class.pool), class)
}

/// The same, by constants with what their texts are: in time that is linear in the class where they have a table.
pub fn unsupported_in(constants: &Constants<'_>, class: &ClassFile) -> Option<Feature>
    requires { class.now.pool ≡ constants.now }
    ensures { result ≡ unsupported class.now }
{
    let fields = class.fields.as_slice();
    let methods = class.methods.as_slice();
    match constants_item(constants) {
        Some(item) => Some(item),
        None => first_item_of_both(constants, fields, methods),
    }
}

/// What may have items that this machine leaves out.
trait Part {
    /// Its first item, where the pool has these constants.
    ghost item: { Items AnyConstant → Self → Maybe AnyFeature };

    /// Its first item, if it has one.
    fn item(&self, constants: &Constants<'_>) -> Option<Feature>
        ensures { result ≡ item constants.now self.now };
}

/// The first item of the parts, in order.
fn first_item<T: Part>(constants: &Constants<'_>, parts: &[T]) -> Option<Feature>
    ensures { result ≡ first_of (map (T.item constants.now) parts.now) }
{
    for part in parts {
        let item = part.item(constants);
        if item.is_some() {
            return item;
        }
    }
    None
}

/// The first item of the parts of one list, and then of another.
fn first_item_of_both<T: Part, U: Part>(
    constants: &Constants<'_>,
    front: &[T],
    back: &[U],
) -> Option<Feature>
    ensures { result ≡ first_of (map (T.item constants.now) front.now ++ map (U.item constants.now) back.now) }
{
    match first_item(constants, front) {
        Some(item) => Some(item),
        None => first_item(constants, back),
    }
}

/// The first floating-point type of its descriptor.
impl Part for Field {
    ghost use Rattle.cb_classfile.specs.Profile.{descriptor_item_at};

    ghost item = { λ pool field. descriptor_item_at pool field.descriptor };

    fn item(&self, constants: &Constants<'_>) -> Option<Feature> {
        descriptor_item(constants, self.descriptor)
    }
}

/// The first item of its flags, its name, its descriptor and its body.
impl Part for Method {
    ghost use Rattle.cb_classfile.specs.Profile.{method_item};

    ghost item = { method_item };

    fn item(&self, constants: &Constants<'_>) -> Option<Feature> {
        method_item(constants, self)
    }
}

/// The first item of its locals, and then of its stack.
impl Part for MapFrame {
    ghost use Rattle.cb_classfile.specs.Profile.{frame_item};

    ghost item = { λ _ frame. frame_item frame };

    fn item(&self, constants: &Constants<'_>) -> Option<Feature> {
        first_item_of_both(constants, self.locals.as_slice(), self.stack.as_slice())
    }
}

/// The item of a floating-point type.
impl Part for MapType {
    ghost use Rattle.cb_classfile.specs.Profile.{type_item};

    ghost item = { λ _ kind. type_item kind };

    fn item(&self, _: &Constants<'_>) -> Option<Feature> {
        match self {
            MapType::Float => Some(Feature::Float),
            MapType::Double => Some(Feature::Double),
            _ => None,
        }
    }
}

/// The item of the opcode, or else of the operand, of an instruction with its place.
impl Part for (u32, Insn) {
    ghost use Rattle.cb_classfile.specs.Profile.{insn_item};

    ghost item = { λ _ placed. insn_item placed.1 };

    fn item(&self, _: &Constants<'_>) -> Option<Feature> {
        opcode_item(self.1.opcode).or_else(|| operand_item(&self.1.operand))
    }
}

/// The first item of the constants.
fn constants_item(constants: &Constants<'_>) -> Option<Feature>
    ensures { result ≡ first_of (map (constant_item constants.now) constants.now) }
{
    for index in 1..constants.len() {
        let item = item_at(constants, index);
        if item.is_some() {
            return item;
        }
    }
    None
}

/// The item of the constant at an index, if there is one.
fn item_at(constants: &Constants<'_>, index: u16) -> Option<Feature>
    ensures { result ≡ option_and_then (constant_item constants.now) (constant_at constants.now index) }
{
    constant_item(constants, constants.constant(index)?)
}

/// The item of a constant.
fn constant_item(constants: &Constants<'_>, constant: &Constant) -> Option<Feature>
    ensures { result ≡ constant_item constants.now constant.now }
{
    match constant {
        Constant::Float(_) => Some(Feature::Float),
        Constant::Double(_) => Some(Feature::Double),
        Constant::MethodHandle(..) => Some(Feature::MethodHandle),
        Constant::MethodType(_) => Some(Feature::MethodType),
        Constant::InvokeDynamic(..) => Some(Feature::InvokeDynamic),
        Constant::Class(name) => class_item(constants, *name),
        Constant::NameAndType(_, descriptor) => descriptor_item(constants, *descriptor),
        _ => None,
    }
}

/// The item of the class whose name is the text at an index.
fn class_item(constants: &Constants<'_>, name: u16) -> Option<Feature>
    ensures { result ≡ option_and_then class_item (text_at constants.now name) }
{
    let text = constants.text(name)?;
    if text.first() == Some(&BRACKET) {
        descriptor_item(constants, name)
    } else if text.starts_with(REFERENCES) {
        Some(Feature::LangRef)
    } else {
        None
    }
}

/// The first floating-point type in the descriptor at an index.
fn descriptor_item(constants: &Constants<'_>, descriptor: u16) -> Option<Feature>
    ensures { result ≡ descriptor_item_at constants.now descriptor }
{
    constants.floating(descriptor).map(feature_of)
}

/// A floating-point type as an item.
fn feature_of(floating: Floating) -> Feature
    ensures { result ≡ feature_of floating }
{
    match floating {
        Floating::Float => Feature::Float,
        Floating::Double => Feature::Double,
    }
}

/// The first item of a method.
fn method_item(constants: &Constants<'_>, method: &Method) -> Option<Feature>
    ensures { result ≡ method_item constants.now method.now }
{
    if method.flags.contains(MethodFlags::SYNCHRONIZED) {
        return Some(Feature::Synchronized);
    }
    if method.flags.contains(MethodFlags::NATIVE) {
        return Some(Feature::Native);
    }
    if is_finalizer(constants, method) {
        return Some(Feature::Finalize);
    }
    match descriptor_item(constants, method.descriptor) {
        Some(item) => Some(item),
        None => body_item(constants, &method.body),
    }
}

/// Whether the method is named `finalize`, and takes and gives nothing.
fn is_finalizer(constants: &Constants<'_>, method: &Method) -> bool
    ensures { result ≡ is_finalizer constants.now method.now }
{
    has_text(constants, method.name, b"finalize") && has_text(constants, method.descriptor, b"()V")
}

/// The first item of a body: of its frames, and of its instructions by place.
fn body_item(constants: &Constants<'_>, body: &Option<Body>) -> Option<Feature>
    ensures { result ≡ first_of (body_items body.now) }
{
    let body = body.as_ref()?;
    first_item_of_both(constants, body.frames.as_slice(), body.code.as_slice())
}

/// The item of an opcode: a floating-point type, a subroutine, `invokedynamic` or a monitor.
fn opcode_item(opcode: u8) -> Option<Feature>
    ensures { result ≡ opcode_item opcode }
{
    if is_float(opcode) {
        return Some(Feature::Float);
    }
    if is_double(opcode) {
        return Some(Feature::Double);
    }
    match opcode {
        opcode::JSR | opcode::RET | opcode::JSR_W => Some(Feature::Jsr),
        opcode::INVOKEDYNAMIC => Some(Feature::InvokeDynamic),
        opcode::MONITORENTER | opcode::MONITOREXIT => Some(Feature::Monitor),
        _ => None,
    }
}

/// Whether the instruction has an operand or a result of type float.
fn is_float(opcode: u8) -> bool
    ensures { result ≡ is_float opcode }
{
    matches!(
        opcode,
        opcode::FCONST_0..=opcode::FCONST_2
            | opcode::FLOAD
            | opcode::FLOAD_0..=opcode::FLOAD_3
            | opcode::FALOAD
            | opcode::FSTORE
            | opcode::FSTORE_0..=opcode::FSTORE_3
            | opcode::FASTORE
            | opcode::FADD
            | opcode::FSUB
            | opcode::FMUL
            | opcode::FDIV
            | opcode::FREM
            | opcode::FNEG
            | opcode::I2F
            | opcode::L2F
            | opcode::F2I..=opcode::F2D
            | opcode::D2F
            | opcode::FCMPL..=opcode::FCMPG
            | opcode::FRETURN
    )
}

/// Whether the instruction has none, and one of type double.
fn is_double(opcode: u8) -> bool
    ensures { result ≡ is_double opcode }
{
    matches!(
        opcode,
        opcode::DCONST_0..=opcode::DCONST_1
            | opcode::DLOAD
            | opcode::DLOAD_0..=opcode::DLOAD_3
            | opcode::DALOAD
            | opcode::DSTORE
            | opcode::DSTORE_0..=opcode::DSTORE_3
            | opcode::DASTORE
            | opcode::DADD
            | opcode::DSUB
            | opcode::DMUL
            | opcode::DDIV
            | opcode::DREM
            | opcode::DNEG
            | opcode::I2D
            | opcode::L2D
            | opcode::D2I..=opcode::D2L
            | opcode::DCMPL..=opcode::DCMPG
            | opcode::DRETURN
    )
}

/// The item of a new array, by its code (JVMS table 6.5.newarray-A).
fn operand_item(operand: &Operand) -> Option<Feature>
    ensures { result ≡ operand_item operand.now }
{
    match operand {
        Operand::ArrayCode(array_code::FLOAT) => Some(Feature::Float),
        Operand::ArrayCode(array_code::DOUBLE) => Some(Feature::Double),
        _ => None,
    }
}
