// The record of a class file (JVMS §4.1).
use crate::{ClassFlags, Fields, Methods};
use cb_plain::{List, Numbers};
use cb_text::Pool;

/// What a class file says (JVMS §4.1). Attributes other than `ConstantValue`, `Code` and `StackMapTable` are skipped.
/// Every index is one of the constant pool.
#[derive(Debug, Drop)]
pub struct ClassFile {
    /// The minor version, which isn't looked at.
    pub minor: u16,
    /// The major version.
    pub major: u16,
    /// The constant pool (§4.4).
    pub pool: Pool,
    /// The access flags.
    pub flags: ClassFlags,
    /// The index of the class itself.
    pub this_class: u16,
    /// The index of the superclass, or 0 for `java/lang/Object`.
    pub super_class: u16,
    /// The indices of the direct superinterfaces.
    pub interfaces: Numbers,
    /// The fields, in the order of the file.
    pub fields: Fields,
    /// The methods, in the order of the file.
    pub methods: Methods,
}

/// Classes, in the order of their numbers.
pub type Classes = List<ClassFile>;
