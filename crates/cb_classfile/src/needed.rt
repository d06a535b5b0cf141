// The constants that instructions name (JVMS §4.9.1, §6.5).
ghost use Rattle.std.specs.Prelude.{◌≡◌, ◌↔◌, IsTrue};
ghost use Rattle.std.specs.List.{AllByRecursion};
ghost use Rattle.cb_classfile.specs.Needed.{HasConstant, CallsClass, NamesInterfaceMethod, StandsAt, index_in, is_of_kind, kind_needed};
ghost use Rattle.cb_classfile.specs.declared.needed.ConstantKind.TheVariants as kinds;

use crate::constants::Constants;
use cb_insn::{Insn, Operand, opcode};
use cb_text::Constant;

/// Whether each instruction that has an index names a constant of the kind that it needs. Takes time in their number.
pub fn have_constants(constants: &Constants<'_>, code: &[(u32, Insn)]) -> bool
    ensures { IsTrue result ↔ AllByRecursion (λ placed. HasConstant constants.now placed.1) code.now }
{
    code.iter().all(|placed| has_constant(constants, &placed.1))
}

/// Whether the instruction does, if it has an index.
fn has_constant(constants: &Constants<'_>, insn: &Insn) -> bool
    ensures { IsTrue result ↔ HasConstant constants.now insn.now }
{
    let Some(index) = index_in(&insn.operand) else {
        return true;
    };
    match kind_needed(insn.opcode) {
        Some(kind) => stands_at(constants, index, kind),
        None => false,
    }
}

/// Whether each `invokespecial` and `invokestatic` names a method of a class, and none of an interface. Takes time in the
/// number of instructions.
pub fn call_classes(constants: &Constants<'_>, code: &[(u32, Insn)]) -> bool
    ensures { IsTrue result ↔ AllByRecursion (λ placed. CallsClass constants.now placed.1) code.now }
{
    code.iter().all(|placed| calls_class(constants, &placed.1))
}

/// Whether the instruction does, if it is one of these.
fn calls_class(constants: &Constants<'_>, insn: &Insn) -> bool
    ensures { IsTrue result ↔ CallsClass constants.now insn.now }
{
    !matches!(insn.opcode, opcode::INVOKESPECIAL | opcode::INVOKESTATIC)
        || !names_interface_method(constants, insn)
}

/// Whether the instruction names a method of an interface.
fn names_interface_method(constants: &Constants<'_>, insn: &Insn) -> bool
    ensures { IsTrue result ↔ NamesInterfaceMethod constants.now insn.now }
{
    match index_in(&insn.operand) {
        Some(index) => stands_at(constants, index, ConstantKind::InterfaceMethod),
        None => false,
    }
}

/// Whether a constant of this kind stands at the index.
fn stands_at(constants: &Constants<'_>, index: u16, kind: ConstantKind) -> bool
    ensures { IsTrue result ↔ StandsAt constants.now index kind }
{
    match constants.constant(index) {
        Some(constant) => kind.admits(constant),
        None => false,
    }
}

/// The index of the pool in an operand, if it has one.
pub fn index_in(operand: &Operand) -> Option<u16>
    ensures { result ≡ index_in operand.now }
{
    match operand {
        Operand::Pool(index) => Some(*index),
        Operand::Dimensions { pool, .. } | Operand::Interface { pool, .. } => Some(*pool),
        _ => None,
    }
}

/// A kind of constant that an instruction names (JVMS §4.9.1, §6.5).
#[derive(Clone, Copy, Debug, PartialEq, Eq)]
pub enum ConstantKind {
    /// What `ldc` may load: an int, a float, a string, a class, a method handle or a method type.
    Loadable,
    /// A long or a double.
    Wide,
    /// A field.
    Field,
    /// A method of a class.
    ClassMethod,
    /// A method of a class or of an interface.
    AnyMethod,
    /// A method of an interface.
    InterfaceMethod,
    /// What `invokedynamic` calls.
    Dynamic,
    /// A class.
    Class,
}

/// The kind of constant that the instruction of an opcode names, or `None` where it has no index.
pub fn kind_needed(opcode: u8) -> Option<ConstantKind>
    ensures { result ≡ kind_needed opcode }
{
    match opcode {
        opcode::LDC | opcode::LDC_W => Some(ConstantKind::Loadable),
        opcode::LDC2_W => Some(ConstantKind::Wide),
        opcode::GETSTATIC..=opcode::PUTFIELD => Some(ConstantKind::Field),
        opcode::INVOKEVIRTUAL => Some(ConstantKind::ClassMethod),
        opcode::INVOKESPECIAL | opcode::INVOKESTATIC => Some(ConstantKind::AnyMethod),
        opcode::INVOKEINTERFACE => Some(ConstantKind::InterfaceMethod),
        opcode::INVOKEDYNAMIC => Some(ConstantKind::Dynamic),
        opcode::NEW
        | opcode::ANEWARRAY
        | opcode::CHECKCAST
        | opcode::INSTANCEOF
        | opcode::MULTIANEWARRAY => Some(ConstantKind::Class),
        _ => None,
    }
}

impl ConstantKind {
    /// Whether a constant is of this kind.
    pub fn admits(self, constant: &Constant) -> bool
        ensures { result ≡ is_of_kind self constant.now }
    {
        match self {
            ConstantKind::Loadable => is_loadable(constant),
            ConstantKind::Wide => matches!(constant, Constant::Long(_) | Constant::Double(_)),
            ConstantKind::Field => matches!(constant, Constant::Fieldref(..)),
            ConstantKind::ClassMethod => matches!(constant, Constant::Methodref(..)),
            ConstantKind::AnyMethod => matches!(
                constant,
                Constant::Methodref(..) | Constant::InterfaceMethodref(..)
            ),
            ConstantKind::InterfaceMethod => matches!(constant, Constant::InterfaceMethodref(..)),
            ConstantKind::Dynamic => matches!(constant, Constant::InvokeDynamic(..)),
            ConstantKind::Class => matches!(constant, Constant::Class(_)),
        }
    }
}

/// Whether `ldc` may load the constant.
fn is_loadable(constant: &Constant) -> bool
    ensures { result ≡ is_of_kind kinds.Loadable constant.now }
{
    matches!(
        constant,
        Constant::Integer(_)
            | Constant::Float(_)
            | Constant::String(_)
            | Constant::Class(_)
            | Constant::MethodHandle(..)
            | Constant::MethodType(_)
    )
}
