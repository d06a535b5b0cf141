// Classes and interfaces.
use cb_plain::{List, Numbers};

/// A class or interface, with the numbers of those that it names.
#[derive(Debug, Drop)]
pub struct Class {
    /// Its superclass, if it has one.
    pub superclass: Option<u32>,
    /// Its direct superinterfaces, in order.
    pub interfaces: Numbers,
    /// Whether it is an interface.
    pub is_interface: bool,
    /// Whether it is final.
    pub is_final: bool,
    /// The number of its run-time package (JVMS §5.3).
    pub package: u32,
}

/// Classes by their numbers.
pub type Classes = List<Class>;
