// Lines, each by what it says.
use crate::{CatchLine, CodeLine, FieldText, Frame, Label};
use cb_text::Units;

/// What a line says.
#[derive(Debug, Drop)]
pub enum Statement {
    /// The class.
    Class(ClassLine),
    /// A direct superinterface of it, by its name.
    Implements(Units),
    /// A field of it.
    Field(FieldText),
    /// A method, which begins.
    Method(MethodLine),
    /// The limits of its code.
    Limits(Limits),
    /// A label or an instruction of its code.
    Code(CodeLine),
    /// An entry of its exception table.
    Catch(CatchLine),
    /// A frame of its code.
    Frame(Frame<Label>),
    /// Its end.
    End,
}

/// The line of a class.
#[derive(Debug, Drop)]
pub struct ClassLine {
    /// The major version.
    pub major: u16,
    /// The access flags.
    pub flags: u16,
    /// Its name.
    pub name: Units,
    /// The name of its superclass, if it has one.
    pub superclass: Option<Units>,
}

/// The first line of a method.
#[derive(Debug, Drop)]
pub struct MethodLine {
    /// The access flags.
    pub flags: u16,
    /// Its name.
    pub name: Units,
    /// Its descriptor.
    pub descriptor: Units,
}

/// The words of the operand stack and of the locals.
#[derive(Clone, Copy, Debug, PartialEq, Eq)]
pub struct Limits {
    /// The most words of the stack.
    pub stack: u16,
    /// The number of words of the locals.
    pub locals: u16,
}
