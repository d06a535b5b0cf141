// A sink in memory that fails at listed calls.
ghost use Rattle.std.specs.Prelude.{◌≡◌, ◌≤◌, [], length, min, IfOk, IsErr, Some};
ghost use Rattle.std.specs.Io.{WritesAtMost};
ghost use Rattle.std.specs.Io.KnownBytes.{WriteAppends};
ghost use Rattle.cb_io.specs.Calls.{FailsNext, first_call, counted};
ghost use Rattle.cb_io.specs.Faults.{CountsFaults};
ghost use Rattle.cb_io.specs.Sink.{TakesSome};

use crate::calls::Calls;
use crate::{Failed, Sink};
use cb_plain::Numbers;
use std::alloc::Global;
use std::marker::Model;

/// A sink that keeps the bytes that it took, at most `most` in a call. The calls fail that are listed by their
/// numbers, counted from 1, and those for whose bytes no memory is to be had.
#[derive(Debug, Drop)]
pub struct MemSink {
    taken: Vec<u8>,
    most: usize,
    calls: Calls,
}

impl Model for MemSink {
    ghost use Rattle.std.specs.Prelude.{◌≤◌};
    ghost use Rattle.cb_io.specs.Memory.{SinkInMemory};

    ghost Value = { SinkInMemory };

    ghost view = { λ sink. record { taken = sink.taken.items; most = sink.most; calls = sink.calls } };

    ghost invariant = { λ sink. 1 ≤ sink.most };
}

impl MemSink {
    /// A sink that has taken nothing. It takes memory from `alloc` as it takes bytes.
    pub fn new(alloc: Global, most: usize, failing: Numbers) -> Self
        requires { 1 ≤ most }
        ensures taken { result.taken ≡ [] }
        ensures most { result.most ≡ most }
        ensures calls { result.calls ≡ first_call failing }
    {
        MemSink {
            taken: Vec::new(alloc),
            most,
            calls: Calls::new(failing),
        }
    }

    /// The bytes that were taken.
    pub fn bytes(&self) -> &[u8]
        ensures { result.now ≡ self.now.taken }
    {
        self.taken.as_slice()
    }
}

impl Sink for MemSink {
    ghost taken = { λ sink. Some sink.taken };

    ghost faults = { λ sink. sink.calls.faults };

    fn write(&mut self, bytes: &[u8]) -> Result<usize, Failed>
        ensures bound { WritesAtMost result bytes.now }
        ensures some { IfOk result (TakesSome bytes.now) }
        ensures taken { WriteAppends (Some self.old.taken) (Some self.new.taken) result bytes.now }
        ensures cause { CountsFaults self.old.calls.faults self.new.calls.faults (IsErr result) }
        ensures count { IfOk result (λ count. count ≡ min self.old.most (length bytes.now)) }
        // It may fail at other calls too, for want of memory.
        ensures listed { FailsNext self.old.calls → IsErr result }
        ensures counted { self.new.calls.made ≡ counted self.old.calls.made }
        ensures failing { self.new.calls.failing ≡ self.old.calls.failing }
        ensures most { self.new.most ≡ self.old.most }
    {
        if self.calls.fails() {
            return Err(Failed);
        }
        let count = self.most.min(bytes.len());
        if self.taken.extend_from_slice(&bytes[..count]).is_err() {
            self.calls.count_fault();
            return Err(Failed);
        }
        Ok(count)
    }
}
