// What the constants that instructions name are.
use cb_plain::Value;

/// What an instruction's index into the constant pool names in a program, or the constant of a static field.
#[derive(Clone, Copy, Debug, Drop, Eq, PartialEq)]
pub enum Named {
    /// Nothing: there is no such index.
    Nothing,
    /// A kind.
    Kind(u32),
    /// A static field, by the class that declares it and its slot among all static fields.
    Static { class: u32, slot: u32 },
    /// A field of objects, by the class that declares it and its slot in them.
    Field { class: u32, slot: u32 },
    /// A method.
    Method(u32),
    /// The text of a string, by its number.
    Text(u32),
    /// An int or a long.
    Whole(Value),
}
