// What is selected.

/// The method that is selected on an object (JVMS §6.5 invokevirtual).
#[derive(Clone, Copy, Debug, PartialEq, Eq)]
pub enum Selected {
    /// The method of a number, which isn't abstract.
    Method(u32),
    /// None, or one that is abstract.
    Abstract,
    /// Several maximally-specific methods of superinterfaces.
    Several,
}
