// A value, as the machine's slots hold it.

/// A value of category 1 or 2 (JVMS §2.6). What Java calls `boolean`, `byte`, `char` and `short` is an int.
#[derive(Clone, Copy, Debug, Drop, Eq, PartialEq)]
pub enum Value {
    /// An int.
    Int(i32),
    /// A long.
    Long(i64),
    /// The place of an object in its store; 0 is null.
    Ref(u64),
}
