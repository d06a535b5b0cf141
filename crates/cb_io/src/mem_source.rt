// A source in memory that fails at listed calls.
ghost use Rattle.std.specs.Prelude.{◌≡◌, ◌≤◌, ◌↔◌, length, min, take, IfOk, IsErr, Some};
ghost use Rattle.std.specs.Io.{ReadsAtMost};
ghost use Rattle.std.specs.Io.KnownBytes.{ReadConsumes};
ghost use Rattle.cb_io.specs.Source.{Gives};
ghost use Rattle.cb_io.specs.Calls.{FailsNext, first_call, counted};
ghost use Rattle.cb_io.specs.Faults.{CountsFaults};

use crate::calls::Calls;
use crate::{Failed, Source, SureSource};
use cb_plain::Numbers;
use std::marker::Model;

/// Bytes in memory, of which a call moves at most `most`. The calls fail that are listed by their numbers, counted
/// from 1.
#[derive(Debug, Drop)]
pub struct MemSource {
    source: SureSource,
    most: usize,
    calls: Calls,
}

impl Model for MemSource {
    ghost use Rattle.std.specs.Prelude.{◌≤◌};
    ghost use Rattle.cb_io.specs.Memory.{SourceInMemory};

    ghost Value = { SourceInMemory };

    ghost view = { λ source. record { left = source.source; most = source.most; calls = source.calls } };

    ghost invariant = { λ source. 1 ≤ source.most };
}

impl MemSource {
    /// A source of these bytes.
    pub fn new(bytes: Vec<u8>, most: usize, failing: Numbers) -> Self
        requires { 1 ≤ most }
        ensures left { result.left ≡ bytes.items }
        ensures most { result.most ≡ most }
        ensures calls { result.calls ≡ first_call failing }
    {
        MemSource {
            source: SureSource::new(bytes),
            most,
            calls: Calls::new(failing),
        }
    }

    /// The bytes that are left.
    pub fn remaining(&self) -> &[u8]
        ensures { result.now ≡ self.now.left }
    {
        self.source.remaining()
    }
}

impl Source for MemSource {
    ghost left = { λ source. Some source.left };

    ghost gave = { λ before most bytes after. Gives (Some before.left) most bytes (Some after.left) };

    ghost faults = { λ source. source.calls.faults };

    fn read(&mut self, buf: &mut [u8]) -> Result<usize, Failed>
        ensures bound { ReadsAtMost result buf.new }
        ensures moved { ReadConsumes (Some self.old.left) (Some self.new.left) result buf.new }
        ensures given { IfOk result (λ count. Gives (Some self.old.left) (length buf.old) (take count buf.new) (Some self.new.left)) }
        ensures cause { CountsFaults self.old.calls.faults self.new.calls.faults (IsErr result) }
        ensures count { IfOk result (λ count. count ≡ min self.old.most (min (length buf.old) (length self.old.left))) }
        ensures listed { IsErr result ↔ FailsNext self.old.calls }
        ensures counted { self.new.calls.made ≡ counted self.old.calls.made }
        ensures failing { self.new.calls.failing ≡ self.old.calls.failing }
        ensures most { self.new.most ≡ self.old.most }
    {
        if self.calls.fails() {
            return Err(Failed);
        }
        let room = self.most.min(buf.len());
        self.source.read(&mut buf[..room])
    }
}
