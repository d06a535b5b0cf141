// Why a run goes no further.
use cb_heap::NoRoom;

/// Why a run makes no further turn.
#[derive(Clone, Copy, Debug, Drop, Eq, PartialEq)]
pub enum Stop {
    /// `main` has returned.
    Returned,
    /// An exception found no handler.
    Uncaught,
    /// The step called `exit` with this status. It was made.
    Exited(i32),
    /// There is no room for what the step places.
    NoRoom(NoRoom),
    /// A call of the input failed.
    InputFault,
    /// A write of what the step prints failed.
    OutputFault,
}
