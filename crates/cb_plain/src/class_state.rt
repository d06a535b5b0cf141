// How far the initialisation of a class is.

/// How far the initialisation of a class is (JVMS §5.5).
#[derive(Clone, Copy, Debug, Drop, Eq, PartialEq)]
pub enum ClassState {
    /// It hasn't begun.
    Untouched,
    /// It has begun, and hasn't ended.
    Busy,
    /// The class is ready.
    Done,
    /// It has ended with an exception.
    Failed,
}
