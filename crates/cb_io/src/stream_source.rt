// A source over a reader of std.
ghost use Rattle.std.specs.Prelude.{◌≡◌, length, take, None, IfOk, IsErr, MatchResult};
ghost use Rattle.std.specs.Io.{ReadsAtMost};
ghost use Rattle.std.specs.Io.KnownBytes.{ReadConsumes};
ghost use Rattle.cb_io.specs.Source.{Gives};
ghost use Rattle.cb_io.specs.Faults.{CountsFaults};

use crate::{Failed, Source};
use std::io;
use std::io::Read;
use std::marker::Model;

/// A source over any reader. As a source it tells nothing of content. Each error of the reader is a fault.
#[derive(Debug, Drop)]
pub struct StreamSource<R: Read> {
    reader: R,
    faults: u64,
}

impl<R: Read> Model for StreamSource<R> {
    ghost use Rattle.cb_io.specs.Adapters.{Counted};

    ghost Value = { Counted R };

    ghost view = { λ source. record { inner = source.reader; faults = source.faults } };
}

impl<R: Read> StreamSource<R> {
    /// A source of what the reader gives.
    pub fn new(reader: R) -> Self
        ensures { result ≡ record { inner = reader; faults = 0 } }
    {
        StreamSource { reader, faults: 0 }
    }

    /// Answers what a call of the reader gave.
    fn answer(&mut self, moved: io::Result<usize>) -> Result<usize, Failed>
        ensures given { MatchResult moved (λ count. result ≡ Ok count) (λ _. IsErr result) }
        ensures cause { CountsFaults self.old.faults self.new.faults (IsErr result) }
        ensures inner { self.new.inner ≡ self.old.inner }
    {
        match moved {
            Ok(count) => Ok(count),
            Err(_) => {
                self.faults = self.faults.saturating_add(1);
                Err(Failed)
            }
        }
    }
}

impl<R: Read> Source for StreamSource<R> {
    ghost left = { λ _. None };

    ghost gave = { λ before most bytes after. Gives (R.remaining before.inner) most bytes (R.remaining after.inner) };

    ghost faults = { λ source. source.faults };

    fn read(&mut self, buf: &mut [u8]) -> Result<usize, Failed>
        ensures bound { ReadsAtMost result buf.new }
        ensures moved { ReadConsumes (R.remaining self.old.inner) (R.remaining self.new.inner) result buf.new }
        ensures given { IfOk result (λ count. Gives (R.remaining self.old.inner) (length buf.old) (take count buf.new) (R.remaining self.new.inner)) }
        ensures cause { CountsFaults self.old.faults self.new.faults (IsErr result) }
    {
        let moved = self.reader.read(buf);
        self.answer(moved)
    }
}
