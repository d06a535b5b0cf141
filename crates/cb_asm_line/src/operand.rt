// Instructions and their operands, by names.
use cb_plain::List;
use cb_text::{MemberKind, Units};

/// A label, by the digits of its number.
pub type Label = List<u8>;

/// An instruction.
#[derive(Debug, Drop)]
pub struct Instruction {
    /// The opcode. Behind `wide` it is the one that follows.
    pub opcode: u8,
    /// Whether `wide` stands before it.
    pub wide: bool,
    /// What stands behind its name.
    pub operand: Operand,
}

/// What stands behind the name of an instruction.
#[derive(Debug, Drop)]
pub enum Operand {
    /// Nothing.
    Nothing,
    /// The number of `bipush` or `sipush`.
    Number(i16),
    /// A local.
    Local(u16),
    /// A local, and what `iinc` adds to it.
    Increase(u16, i16),
    /// A constant that is loaded.
    Load(Value),
    /// A field or method.
    Member(MemberText),
    /// A class, by its name.
    Class(Units),
    /// A primitive type, by its code (JVMS table 6.5.newarray-A).
    Array(u8),
    /// An array's class, and how many dimensions are made.
    Dimensions(Units, u8),
    /// The label of a branch.
    Branch(Label),
    /// The lowest number, the default label and the labels of a `tableswitch`.
    Table(i32, Label, List<Label>),
    /// The default label of a `lookupswitch`, and its keys, each with its label.
    Lookup(Label, List<(i32, Label)>),
}

/// A constant that stands for itself.
#[derive(Debug, Drop)]
pub enum Value {
    /// An int.
    Int(i32),
    /// A long.
    Long(i64),
    /// A string.
    Text(Units),
    /// A class, by its name.
    Class(Units),
}

/// A field or method, by its names.
#[derive(Debug, Drop)]
pub struct MemberText {
    /// What it is.
    pub kind: MemberKind,
    /// The name of the class or interface in which it is looked for.
    pub class: Units,
    /// Its name.
    pub name: Units,
    /// Its descriptor.
    pub descriptor: Units,
}
