// The tables of objects that there are once.

/// A table of objects that are placed once, when they are first asked for (JVMS §5.1; JLS §3.10.5, §5.1.7).
#[derive(Clone, Copy, Debug, Drop, Eq, PartialEq)]
pub enum Table {
    /// Strings, by the number of their text.
    Constants,
    /// Class objects, by the number of their kind.
    ClassObjects,
    /// Boxes of ints, from the least number that has one.
    Integers,
    /// Boxes of longs, from the least number that has one.
    Longs,
    /// Boxes of chars, from 0.
    Characters,
    /// Boxes of false and true.
    Booleans,
}
