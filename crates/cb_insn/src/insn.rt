// Decoded instructions.
use crate::List;

/// An instruction.
#[derive(Debug, Drop)]
pub struct Insn {
    /// The opcode, which tells `iload_1` from an `iload` of 1. Behind `wide` it is the one that follows.
    pub opcode: u8,
    /// Whether `wide` stands before the opcode.
    pub wide: bool,
    /// What stands behind the opcode.
    pub operand: Operand,
}

/// What stands behind an opcode. Targets are places in the code, counted from its start.
#[derive(Debug, Drop)]
pub enum Operand {
    /// Nothing, also where the form of the instruction names its local or number.
    Nothing,
    /// The number of `bipush` or `sipush`.
    Number(i16),
    /// An index of the constant pool.
    Pool(u16),
    /// An index of the locals.
    Local(u16),
    /// An index of the locals, and how much `iinc` adds.
    Increase {
        local: u16,
        by: i16,
    },
    /// The target of a branch.
    Branch(u32),
    /// The code of a primitive type, 4 to 11 (JVMS §6.5.newarray).
    ArrayCode(u8),
    /// An index of the constant pool, and how many dimensions are made, from 1 on.
    Dimensions {
        pool: u16,
        dimensions: u8,
    },
    /// An index of the constant pool, and the count of argument words, from 1 on.
    Interface {
        pool: u16,
        count: u8,
    },
    /// The default target, the low bound and the targets of a `tableswitch`.
    Table {
        default: u32,
        low: i32,
        targets: Targets,
    },
    /// The default target and the pairs of a `lookupswitch`.
    Lookup {
        default: u32,
        pairs: Pairs,
    },
}

/// The targets of a `tableswitch`, one for each number from the low bound on.
pub type Targets = List<u32>;

/// A key of a `lookupswitch` and its target.
#[derive(Clone, Copy, Debug, PartialEq, Eq)]
pub struct Pair {
    /// The number that is looked up.
    pub key: i32,
    /// The place in the code, counted from its start.
    pub target: u32,
}

/// The pairs of a `lookupswitch`.
pub type Pairs = List<Pair>;

/// The instructions of a code array, each with its place.
pub type Code = List<(u32, Insn)>;
