// How a run of a machine ends.
/// How a run has ended, or that it hasn't.
#[derive(Clone, Copy, Debug, PartialEq, Eq)]
pub enum Outcome {
    /// `main` has returned.
    Returned,
    /// `System.exit` was called, with this status.
    Exited(i32),
    /// An exception found no handler: that of this serial.
    Uncaught(u64),
    /// It goes on.
    Running,
}
