// How a call ends, and the status that tells it.
/// How a call ended. Its last line on the error output tells the rest.
#[derive(Clone, Copy, Debug, PartialEq, Eq)]
pub enum Cause {
    /// The command came to its end.
    Returned,
    /// The program called `exit` with this status. What was printed before stands.
    Exited(i32),
    /// An exception of the program found no handler: that of a class of this number. What was printed before stands.
    Uncaught(u32),
    /// As many steps were made as a run makes at most. What they print stands.
    BudgetSpent,
    /// What the next step of the program places takes more words than there may be, or what is there at its start does. What was
    /// printed before stands.
    HeapFull,
    /// The words are no command.
    Usage,
    /// What the words ask for was refused.
    Refused,
    /// A call of the folder failed.
    FolderFault,
    /// A call of the input failed.
    InputFault,
    /// A call of the sink for what the program prints failed.
    OutputFault,
    /// A call of the sink for the last line failed.
    ErrFault,
    /// No memory was to be had. What was printed before stands.
    OutOfMemory,
}

/// How many exit statuses there are. That of a program that called `exit` is its argument modulo this.
const STATUSES: i32 = 256;

impl Cause {
    ghost use Rattle.std.specs.Prelude.{◌≡◌};
    ghost use Rattle.cb_runner.specs.Ending.{status_of};

    /// The exit status of the program.
    pub fn status(self) -> u8
        ensures { result ≡ status_of self }
    {
        match self {
            Cause::Returned => 0,
            Cause::Exited(status) => status.rem_euclid(STATUSES) as u8,
            Cause::Uncaught(_) => 1,
            Cause::OutOfMemory => 119,
            Cause::Usage => 120,
            Cause::Refused => 121,
            Cause::BudgetSpent => 122,
            Cause::HeapFull => 123,
            Cause::FolderFault => 124,
            Cause::InputFault => 125,
            Cause::OutputFault => 126,
            Cause::ErrFault => 127,
        }
    }
}
