// The codes of primitive types in `newarray` (JVMS table 6.5.newarray-A).

/// `boolean`
pub const BOOLEAN: u8 = 4;
/// `char`
pub const CHAR: u8 = 5;
/// `float`
pub const FLOAT: u8 = 6;
/// `double`
pub const DOUBLE: u8 = 7;
/// `byte`
pub const BYTE: u8 = 8;
/// `short`
pub const SHORT: u8 = 9;
/// `int`
pub const INT: u8 = 10;
/// `long`
pub const LONG: u8 = 11;
