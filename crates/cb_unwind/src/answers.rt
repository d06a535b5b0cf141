// What calls of this crate have done.

/// What a step of an initialisation has done.
#[derive(Clone, Copy, Debug, Drop, Eq, PartialEq)]
pub enum InitStep {
    /// It goes on.
    Goes,
    /// There is no room for a frame, and nothing has changed.
    Deep,
    /// It has looked at a class whose initialisation failed.
    FailedParent,
}

/// What a step of unwinding has done.
#[derive(Clone, Copy, Debug, Drop, Eq, PartialEq)]
pub enum Unwound {
    /// No frame stands, and nothing has changed.
    NoFrame,
    /// A handler of the topmost method has taken the exception.
    Caught,
    /// The topmost frame has ended. Where it was that of an initialisation, this has failed.
    Popped,
    /// The topmost frame has ended, which was that of an initialisation, and the exception is wrapped into another one.
    Wrapped,
}
