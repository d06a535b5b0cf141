// The sites of the exceptions that the machine throws.

/// Of null where an object is asked for.
pub(crate) const NULL_POINTER: u32 = 16;

/// Of an index out of an array.
pub(crate) const ARRAY_INDEX: u32 = 18;

/// Of a reference that doesn't fit the elements of an array.
pub(crate) const ARRAY_STORE: u32 = 20;

/// Of an object that isn't of the class that a cast asks for.
pub(crate) const CLASS_CAST: u32 = 21;

/// Of an array of a negative size.
pub(crate) const NEGATIVE_SIZE: u32 = 19;

/// Of a frame for which there is no room.
pub const STACK_OVERFLOW: u32 = 22;

/// Of a class whose initialisation has failed.
pub const NO_CLASS_DEFINITION: u32 = 24;

/// Of a call for which several methods are selected, or of an interface that the object doesn't implement.
pub(crate) const INCOMPATIBLE_CLASS_CHANGE: u32 = 25;

/// Of a call for which no method is selected, or an abstract one.
pub(crate) const ABSTRACT_METHOD: u32 = 26;
