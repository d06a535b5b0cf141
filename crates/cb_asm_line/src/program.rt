// What a text of the assembly format says: the tree that its lines spell.
use crate::{FrameLine, Instruction, Label, Value};
use cb_plain::List;
use cb_text::Units;

/// A class, as a text of the format has it.
#[derive(Debug, Drop)]
pub struct Program {
    /// The major version.
    pub major: u16,
    /// The access flags.
    pub flags: u16,
    /// Its name.
    pub name: Units,
    /// The name of its superclass, if it has one.
    pub superclass: Option<Units>,
    /// The names of its direct superinterfaces.
    pub interfaces: List<Units>,
    /// Its fields.
    pub fields: List<FieldText>,
    /// Its methods.
    pub methods: List<MethodText>,
}

/// A field, with the value of a constant one.
#[derive(Debug, Drop)]
pub struct FieldText {
    /// The access flags.
    pub flags: u16,
    /// Its name.
    pub name: Units,
    /// Its descriptor.
    pub descriptor: Units,
    /// The value of a constant one.
    pub value: Option<Value>,
}

/// A method.
#[derive(Debug, Drop)]
pub struct MethodText {
    /// The access flags.
    pub flags: u16,
    /// Its name.
    pub name: Units,
    /// Its descriptor.
    pub descriptor: Units,
    /// Its code, if it has any.
    pub code: Option<CodeText>,
}

/// The code of a method.
#[derive(Debug, Drop)]
pub struct CodeText {
    /// The most words of the operand stack.
    pub stack: u16,
    /// The number of words of the locals.
    pub locals: u16,
    /// Its instructions and labels.
    pub lines: List<CodeLine>,
    /// Its exception table.
    pub catches: List<CatchLine>,
    /// Its frames.
    pub frames: List<FrameLine>,
}

/// A line of code.
#[derive(Debug, Drop)]
pub enum CodeLine {
    /// A label, which names the place there.
    Here(Label),
    /// An instruction.
    Do(Instruction),
}

/// An entry of the exception table, by labels.
#[derive(Debug, Drop)]
pub struct CatchLine {
    /// Where it begins to hold.
    pub start: Label,
    /// Where it ends.
    pub end: Label,
    /// Where it goes on.
    pub handler: Label,
    /// The name of the class that it catches. One without catches all.
    pub class: Option<Units>,
}
