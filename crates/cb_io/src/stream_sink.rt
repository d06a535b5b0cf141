// A sink over a writer of std.
ghost use Rattle.std.specs.Prelude.{◌≡◌, None, IfOk, IsErr};
ghost use Rattle.std.specs.Io.{WritesAtMost};
ghost use Rattle.std.specs.Io.KnownBytes.{WriteAppends};
ghost use Rattle.cb_io.specs.Faults.{CountsFaults};
ghost use Rattle.cb_io.specs.Sink.{TakesSome};

use crate::{Failed, Sink};
use std::io;
use std::io::Write;
use std::marker::Model;

/// A sink over any writer, which is to be one that holds nothing back. As a sink it tells nothing of content. Each
/// error of the writer is a fault, and so is a write of 0 bytes of some.
#[derive(Debug, Drop)]
pub struct StreamSink<W: Write> {
    writer: W,
    faults: u64,
}

impl<W: Write> Model for StreamSink<W> {
    ghost use Rattle.cb_io.specs.Adapters.{Counted};

    ghost Value = { Counted W };

    ghost view = { λ sink. record { inner = sink.writer; faults = sink.faults } };
}

impl<W: Write> StreamSink<W> {
    /// A sink that leads to the writer.
    pub fn new(writer: W) -> Self
        ensures { result ≡ record { inner = writer; faults = 0 } }
    {
        StreamSink { writer, faults: 0 }
    }

    /// Answers what a call of the writer gave for these bytes.
    fn answer(&mut self, written: io::Result<usize>, bytes: &[u8]) -> Result<usize, Failed>
        ensures given { IfOk written (λ count. TakesSome bytes.now count → result ≡ Ok count) }
        ensures only { IfOk result (λ count. TakesSome bytes.now count × (written ≡ Ok count)) }
        ensures cause { CountsFaults self.old.faults self.new.faults (IsErr result) }
        ensures inner { self.new.inner ≡ self.old.inner }
    {
        match written {
            Ok(count) if count > 0 || bytes.is_empty() => Ok(count),
            _ => {
                self.faults = self.faults.saturating_add(1);
                Err(Failed)
            }
        }
    }
}

impl<W: Write> Sink for StreamSink<W> {
    ghost taken = { λ _. None };

    ghost faults = { λ sink. sink.faults };

    fn write(&mut self, bytes: &[u8]) -> Result<usize, Failed>
        ensures bound { WritesAtMost result bytes.now }
        ensures some { IfOk result (TakesSome bytes.now) }
        ensures taken { WriteAppends (W.contents self.old.inner) (W.contents self.new.inner) result bytes.now }
        ensures cause { CountsFaults self.old.faults self.new.faults (IsErr result) }
    {
        let written = self.writer.write(bytes);
        self.answer(written, bytes)
    }
}
