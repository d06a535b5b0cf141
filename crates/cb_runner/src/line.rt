// The last line of a program that was run.
ghost use Rattle.std.specs.Fmt.{decimal};
ghost use Rattle.std.specs.Prelude.{◌++◌, IsErr, Some};
ghost use Rattle.cb_interp.specs.Texts.{Writes};
ghost use Rattle.cb_io.specs.Faults.{CountsFaults};
ghost use Rattle.cb_runner.specs.Inner.{CanBeTold, IsUnhandled, line_text, unhandled_line};
ghost use Rattle.cb_runner.specs.Running.{full_line, spent_line};
ghost use Rattle.cb_heap.specs.declared.no_room.NoRoom.TheVariants.{Full};

use cb_collector::Collector;
use cb_interp::write_exception;
use cb_io::{Failed, Sink, SureSink, write_all};
use cb_link::Program;
use itoa::Buffer;

/// The last line of a program that was run, which takes no memory to be written.
#[derive(Drop)]
pub(crate) enum Line {
    /// So many steps were made.
    Spent(u64),
    /// There was no room: so many words were live, so many asked for, and so many allowed.
    Full { live: u64, asked: u64, limit: u64 },
    /// An exception found no handler.
    Unhandled(Unhandled),
}

/// An exception that found no handler: its place in the store, and the program, which names its class.
#[derive(Drop)]
pub(crate) struct Unhandled {
    pub program: Program,
    pub at: u64,
}

impl Line {
    /// Writes it, by the store of the run. After a failed call a proper prefix of it was taken.
    pub(crate) fn write<E: Sink>(
        &self,
        store: &Option<Collector<SureSink>>,
        err: &mut E,
    ) -> Result<(), Failed>
        requires { CanBeTold store.now self.now }
        ensures written { Writes (E.taken err.old) (E.taken err.new) (line_text store.now self.now) result }
        ensures cause { CountsFaults (E.faults err.old) (E.faults err.new) (IsErr result) }
    {
        match self {
            Line::Spent(steps) => write_spent(*steps, err),
            Line::Full { live, asked, limit } => write_full(*live, *asked, *limit, err),
            Line::Unhandled(exception) => match store {
                Some(store) => write_unhandled(exception, store, err),
                None => unreachable!(),
            },
        }
    }
}

/// Writes that so many steps were made.
fn write_spent<E: Sink>(steps: u64, err: &mut E) -> Result<(), Failed>
    ensures written { Writes (E.taken err.old) (E.taken err.new) (spent_line steps) result }
    ensures cause { CountsFaults (E.faults err.old) (E.faults err.new) (IsErr result) }
{
    write_number(b"cbvm: budget spent after ", steps, err)?;
    write_all(err, b" steps\n")
}

/// Writes that there was no room.
fn write_full<E: Sink>(live: u64, asked: u64, limit: u64, err: &mut E) -> Result<(), Failed>
    ensures written { Writes (E.taken err.old) (E.taken err.new) (full_line (Full live asked limit)) result }
    ensures cause { CountsFaults (E.faults err.old) (E.faults err.new) (IsErr result) }
{
    write_number(b"cbvm: heap full ", live, err)?;
    write_number(b" live ", asked, err)?;
    write_number(b" asked ", limit, err)?;
    write_all(err, b" allowed\n")
}

/// Writes a text and a number in decimal behind it.
fn write_number<E: Sink>(text: &[u8], number: u64, err: &mut E) -> Result<(), Failed>
    ensures written { Writes (E.taken err.old) (E.taken err.new) (text.now ++ decimal number) result }
    ensures cause { CountsFaults (E.faults err.old) (E.faults err.new) (IsErr result) }
{
    write_all(err, text)?;
    let mut buffer = Buffer::new();
    write_all(err, buffer.format(number).as_bytes())
}

/// Writes an exception that found no handler.
fn write_unhandled<E: Sink>(
    exception: &Unhandled,
    store: &Collector<SureSink>,
    err: &mut E,
) -> Result<(), Failed>
    requires { IsUnhandled store.now.heap exception.now }
    ensures written { Writes (E.taken err.old) (E.taken err.new) (unhandled_line (Some store.now) exception.now) result }
    ensures cause { CountsFaults (E.faults err.old) (E.faults err.new) (IsErr result) }
{
    write_all(err, b"Exception in thread \"main\" ")?;
    write_exception(&exception.program, store, exception.at, err)
}
