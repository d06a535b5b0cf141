// The rows of the table, as data of the program.
use cb_library::Native;

/// An instruction, by its opcode and what its operand names. A branch names its target by the number of an instruction of
/// the body, counted from 0.
#[derive(Clone, Copy, Debug)]
pub(crate) enum Instruction {
    /// One without an operand.
    Plain(u8),
    /// A branch.
    Branch(u8, u16),
    /// The load of a string constant.
    LoadText(&'static str),
    /// One that names a class.
    OfClass(u8, &'static str),
    /// One that names a field, by its class, its name and its descriptor.
    OfField(u8, &'static str, &'static str, &'static str),
    /// One that names a method of a class, by the same.
    OfMethod(u8, &'static str, &'static str, &'static str),
}

/// The frame of the verifier before the instruction of a number: its locals are objects of these classes, and its
/// operand stack is empty (JVMS §4.7.4).
#[derive(Clone, Copy, Debug)]
pub(crate) struct Frame {
    pub(crate) at: u16,
    pub(crate) locals: &'static [&'static str],
}

/// A body, with a frame where it branches.
#[derive(Clone, Copy, Debug)]
pub(crate) struct Body {
    pub(crate) max_stack: u16,
    pub(crate) max_locals: u16,
    pub(crate) code: &'static [Instruction],
    pub(crate) frame: Option<Frame>,
}

/// What a method is.
#[derive(Clone, Copy, Debug)]
pub(crate) enum Kind {
    /// It has no body here.
    Abstract,
    /// It is a native.
    Performed(Native),
    /// It has a body.
    Runs(Body),
}

/// A method.
#[derive(Clone, Copy, Debug)]
pub(crate) struct Method {
    pub(crate) flags: u16,
    pub(crate) name: &'static str,
    pub(crate) descriptor: &'static str,
    pub(crate) kind: Kind,
}

/// A field.
#[derive(Clone, Copy, Debug)]
pub(crate) struct Field {
    pub(crate) flags: u16,
    pub(crate) name: &'static str,
    pub(crate) descriptor: &'static str,
}

/// A class.
#[derive(Clone, Copy, Debug)]
pub(crate) struct CoreClass {
    pub(crate) flags: u16,
    pub(crate) name: &'static str,
    pub(crate) superclass: Option<&'static str>,
    pub(crate) interfaces: &'static [&'static str],
    pub(crate) fields: &'static [Field],
    pub(crate) methods: &'static [Method],
}
