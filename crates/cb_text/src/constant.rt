// A constant of the pool.
use crate::Units;

/// An entry of the constant pool, by its tag (JVMS §4.4). Its numbers are those of the file, in their order.
#[derive(Debug, Drop)]
pub enum Constant {
    /// A text (§4.4.7).
    Utf8(Units),
    /// An int, in two's complement (§4.4.4).
    Integer(u32),
    /// The bits of a float (§4.4.4).
    Float(u32),
    /// A long, in two's complement (§4.4.5).
    Long(u64),
    /// The bits of a double (§4.4.5).
    Double(u64),
    /// A class or array type, by the index of its name (§4.4.1).
    Class(u16),
    /// A string, by the index of its text (§4.4.3).
    String(u16),
    /// A field, by the indices of its class and of its name and type (§4.4.2).
    Fieldref(u16, u16),
    /// A method of a class, by the same (§4.4.2).
    Methodref(u16, u16),
    /// A method of an interface, by the same (§4.4.2).
    InterfaceMethodref(u16, u16),
    /// The indices of a name and of a descriptor (§4.4.6).
    NameAndType(u16, u16),
    /// A method handle, by its kind from 1 to 9 and the index of its member (§4.4.8).
    MethodHandle(u8, u16),
    /// A method type, by the index of its descriptor (§4.4.9).
    MethodType(u16),
    /// The place of a bootstrap method, and the index of a name and type (§4.4.10).
    InvokeDynamic(u16, u16),
    /// The index behind a `Long` or `Double`, which has no bytes (§4.4.5).
    Gap,
}
