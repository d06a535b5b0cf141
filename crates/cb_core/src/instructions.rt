// The instructions of the library's bodies, by their names (JVMS chapter 6).
use crate::row::Instruction;
use cb_insn::opcode;

pub(crate) const ALOAD_0: Instruction = Instruction::Plain(opcode::ALOAD_0);

pub(crate) const ALOAD_1: Instruction = Instruction::Plain(opcode::ALOAD_1);

pub(crate) const ALOAD_2: Instruction = Instruction::Plain(opcode::ALOAD_2);

pub(crate) const ILOAD_2: Instruction = Instruction::Plain(opcode::ILOAD_2);

pub(crate) const ACONST_NULL: Instruction = Instruction::Plain(opcode::ACONST_NULL);

pub(crate) const ICONST_0: Instruction = Instruction::Plain(opcode::ICONST_0);

pub(crate) const DUP: Instruction = Instruction::Plain(opcode::DUP);

pub(crate) const ARRAYLENGTH: Instruction = Instruction::Plain(opcode::ARRAYLENGTH);

pub(crate) const ARETURN: Instruction = Instruction::Plain(opcode::ARETURN);

pub(crate) const IRETURN: Instruction = Instruction::Plain(opcode::IRETURN);

pub(crate) const RETURN: Instruction = Instruction::Plain(opcode::RETURN);

pub(crate) const ATHROW: Instruction = Instruction::Plain(opcode::ATHROW);

// Branches, by the number of the instruction that they go to.
macro_rules! ifeq {
    ($target:literal) => {
        $crate::row::Instruction::Branch(cb_insn::opcode::IFEQ, $target)
    };
}

macro_rules! ifnull {
    ($target:literal) => {
        $crate::row::Instruction::Branch(cb_insn::opcode::IFNULL, $target)
    };
}

macro_rules! ifnonnull {
    ($target:literal) => {
        $crate::row::Instruction::Branch(cb_insn::opcode::IFNONNULL, $target)
    };
}

// The string constant of this text.
macro_rules! ldc {
    ($text:literal) => {
        $crate::row::Instruction::LoadText($text)
    };
}

// By the name of a class.
macro_rules! new {
    ($class:expr) => {
        $crate::row::Instruction::OfClass(cb_insn::opcode::NEW, $class)
    };
}

macro_rules! checkcast {
    ($class:expr) => {
        $crate::row::Instruction::OfClass(cb_insn::opcode::CHECKCAST, $class)
    };
}

macro_rules! instanceof {
    ($class:expr) => {
        $crate::row::Instruction::OfClass(cb_insn::opcode::INSTANCEOF, $class)
    };
}

// By class, name and descriptor of a member.
macro_rules! getfield {
    ($class:expr, $name:expr, $descriptor:expr) => {
        $crate::row::Instruction::OfField(cb_insn::opcode::GETFIELD, $class, $name, $descriptor)
    };
}

macro_rules! putfield {
    ($class:expr, $name:expr, $descriptor:expr) => {
        $crate::row::Instruction::OfField(cb_insn::opcode::PUTFIELD, $class, $name, $descriptor)
    };
}

macro_rules! invokevirtual {
    ($class:expr, $name:expr, $descriptor:expr) => {
        $crate::row::Instruction::OfMethod(cb_insn::opcode::INVOKEVIRTUAL, $class, $name, $descriptor)
    };
}

macro_rules! invokespecial {
    ($class:expr, $name:expr, $descriptor:expr) => {
        $crate::row::Instruction::OfMethod(cb_insn::opcode::INVOKESPECIAL, $class, $name, $descriptor)
    };
}

macro_rules! invokestatic {
    ($class:expr, $name:expr, $descriptor:expr) => {
        $crate::row::Instruction::OfMethod(cb_insn::opcode::INVOKESTATIC, $class, $name, $descriptor)
    };
}

// The body of `compareTo(Object)` of a class that is Comparable with itself: it casts and calls.
macro_rules! compares {
    ($class:expr, $descriptor:expr) => {
        $crate::words::runs!(2, 2; [
            $crate::instructions::ALOAD_0,
            $crate::instructions::ALOAD_1,
            $crate::instructions::checkcast!($class),
            $crate::instructions::invokevirtual!($class, "compareTo", $descriptor),
            $crate::instructions::IRETURN,
        ])
    };
}

pub(crate) use checkcast;
pub(crate) use compares;
pub(crate) use getfield;
pub(crate) use ifeq;
pub(crate) use ifnonnull;
pub(crate) use ifnull;
pub(crate) use instanceof;
pub(crate) use invokespecial;
pub(crate) use invokestatic;
pub(crate) use invokevirtual;
pub(crate) use ldc;
pub(crate) use new;
pub(crate) use putfield;
