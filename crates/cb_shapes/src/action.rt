// What instructions do.
use crate::{Computation, Condition, Elements, Shuffle, Sort};

/// What an instruction does, by its shape. Indices are those of the constant pool.
#[derive(Clone, Copy, Debug, Drop, Eq, PartialEq)]
pub enum Action {
    /// It computes from numbers.
    Compute(Computation),
    /// `aconst_null`
    Null,
    /// `ldc`, `ldc_w`, `ldc2_w`: an int, a long, a string or a class.
    Constant(u16),
    /// `iload`, `lload`, `aload`
    Load { sort: Sort, local: u16 },
    /// `istore`, `lstore`, `astore`
    Store { sort: Sort, local: u16 },
    /// `iinc`
    Increase { local: u16, by: i16 },
    /// It moves what stands on the operand stack.
    Shuffle(Shuffle),
    /// It goes to its target where a condition holds, and else on.
    Branch(Condition),
    /// `tableswitch`, `lookupswitch`: it goes to the target that an int chooses.
    Switch,
    /// It loads an element of an array of numbers.
    LoadNumber(Elements),
    /// It stores one.
    StoreNumber(Elements),
    /// `arraylength`
    Length,
    /// `aaload`
    LoadReference,
    /// `aastore`
    StoreReference,
    GetField(u16),
    PutField(u16),
    GetStatic(u16),
    PutStatic(u16),
    New(u16),
    /// `newarray`, by the code of the base type (JVMS table 6.5.newarray-A).
    NewNumbers(u8),
    /// `anewarray`
    NewReferences(u16),
    /// `multianewarray`
    NewArrays { index: u16, dimensions: u8 },
    /// `checkcast`
    Cast(u16),
    /// `instanceof`
    IsInstance(u16),
    /// `athrow`
    Throw,
    /// `ireturn`, `lreturn`, `areturn`, and `return`, which gives nothing.
    Return(Option<Sort>),
    InvokeStatic(u16),
    InvokeSpecial(u16),
    InvokeVirtual(u16),
    /// `invokeinterface`, with its count of words.
    InvokeInterface { index: u16, count: u8 },
}
