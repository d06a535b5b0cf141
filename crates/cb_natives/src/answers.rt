// What a native answers that places nothing but an exception.
ghost use Rattle.std.specs.Prelude.{◌≡◌};
ghost use Rattle.cb_natives.specs.Exceptions.{site_of};

/// What a native gives (JVMS §2.6.4). A boolean and a char are ints.
#[derive(Clone, Copy, Debug, Drop, Eq, PartialEq)]
pub enum Answer {
    /// Its result is `void`.
    Nothing,
    /// An int.
    Int(i32),
    /// A long.
    Long(i64),
}

/// An exception without a message that natives throw (Java SE 8 API, java.lang).
#[derive(Clone, Copy, Debug, Drop, Eq, PartialEq)]
pub enum Exception {
    NullPointer,
    NegativeArraySize,
    StringIndexOutOfBounds,
    NumberFormat,
    IllegalArgument,
    NoClassDefinition,
    CloneNotSupported,
    ArrayIndexOutOfBounds,
    ArrayStore,
    IndexOutOfBounds,
}

impl Exception {
    /// The site at which it is placed.
    pub fn site(self) -> u32
        ensures { result ≡ site_of self }
    {
        match self {
            Exception::NullPointer => 16,
            Exception::NegativeArraySize => 19,
            Exception::StringIndexOutOfBounds => 27,
            Exception::NumberFormat => 28,
            Exception::IllegalArgument => 29,
            Exception::NoClassDefinition => 24,
            Exception::CloneNotSupported => 30,
            Exception::ArrayIndexOutOfBounds => 18,
            Exception::ArrayStore => 20,
            Exception::IndexOutOfBounds => 31,
        }
    }
}

/// What a native throws in place of an answer.
#[derive(Clone, Copy, Debug, Drop, Eq, PartialEq)]
pub enum Thrown {
    /// An exception without a message.
    Of(Exception),
    /// The exception of a division by zero, which has a message.
    ByZero,
}
