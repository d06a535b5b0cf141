// Methods and fields.
use cb_plain::List;

/// The class that declares a member, and the member's signature: the number of its name with its descriptor.
#[derive(Clone, Copy, Debug, PartialEq, Eq, Hash)]
pub struct Declared {
    pub class: u32,
    pub signature: u32,
}

/// From where a method may be seen (JVMS §4.6).
#[derive(Clone, Copy, Debug, PartialEq, Eq)]
pub enum Visibility {
    Public,
    Protected,
    /// Neither public nor protected nor private.
    Package,
    Private,
}

/// A method.
#[derive(Clone, Copy, Debug)]
pub struct Method {
    pub declared: Declared,
    pub visibility: Visibility,
    pub is_static: bool,
    pub is_final: bool,
    pub is_abstract: bool,
}

/// A field.
#[derive(Clone, Copy, Debug)]
pub struct Field {
    pub declared: Declared,
    pub is_static: bool,
}

/// Methods by their numbers.
pub type Methods = List<Method>;

/// Fields by their numbers.
pub type Fields = List<Field>;
