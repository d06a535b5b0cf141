// Instructions on fields, methods, objects and arrays.
ghost use Rattle.std.specs.Prelude.{◌≡◌};
ghost use Rattle.cb_shapes.specs.References.{by_constant, reference, without_operand};

use crate::Action;
use cb_insn::{Operand, opcode};

/// What an instruction does that names a constant of the pool (JVMS §6.5).
fn by_constant(code: u8, index: u16) -> Option<Action>
    ensures { result ≡ by_constant code index }
{
    match code {
        opcode::GETSTATIC => Some(Action::GetStatic(index)),
        opcode::PUTSTATIC => Some(Action::PutStatic(index)),
        opcode::GETFIELD => Some(Action::GetField(index)),
        opcode::PUTFIELD => Some(Action::PutField(index)),
        opcode::INVOKEVIRTUAL => Some(Action::InvokeVirtual(index)),
        opcode::INVOKESPECIAL => Some(Action::InvokeSpecial(index)),
        opcode::INVOKESTATIC => Some(Action::InvokeStatic(index)),
        opcode::NEW => Some(Action::New(index)),
        opcode::ANEWARRAY => Some(Action::NewReferences(index)),
        opcode::CHECKCAST => Some(Action::Cast(index)),
        opcode::INSTANCEOF => Some(Action::IsInstance(index)),
        _ => None,
    }
}

/// What `arraylength` or `athrow` does.
fn without_operand(code: u8) -> Option<Action>
    ensures { result ≡ without_operand code }
{
    match code {
        opcode::ARRAYLENGTH => Some(Action::Length),
        opcode::ATHROW => Some(Action::Throw),
        _ => None,
    }
}

/// What an instruction on fields, methods, objects or arrays does (JVMS §6.5, getstatic to instanceof, multianewarray).
pub(crate) fn reference(code: u8, operand: &Operand) -> Option<Action>
    ensures { result ≡ reference code operand.now }
{
    match operand {
        Operand::Pool(index) => by_constant(code, *index),
        Operand::Interface { pool, count } => Some(Action::InvokeInterface {
            index: *pool,
            count: *count,
        }),
        Operand::ArrayCode(base) => Some(Action::NewNumbers(*base)),
        Operand::Dimensions { pool, dimensions } => Some(Action::NewArrays {
            index: *pool,
            dimensions: *dimensions,
        }),
        Operand::Nothing => without_operand(code),
        _ => None,
    }
}
