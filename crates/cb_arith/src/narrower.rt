// Types that are narrower than an int.
/// A type that an int is made narrower to.
#[derive(Clone, Copy, Debug, Drop, Eq, PartialEq)]
pub enum Narrow {
    /// `i2b`: 8 bits with a sign
    Byte,
    /// `i2c`: 16 bits without one
    Char,
    /// `i2s`: 16 bits with a sign
    Short,
}
