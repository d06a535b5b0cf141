// A source in memory that never fails.
ghost use Rattle.std.specs.Prelude.{◌≡◌, length, min, IsOk, IfOk, Some, take, drop};
ghost use Rattle.std.specs.Io.{ReadsAtMost};
ghost use Rattle.std.specs.Io.KnownBytes.{ReadConsumes};
ghost use Rattle.cb_io.specs.Source.{Gives};

use crate::{Failed, Source};
use std::marker::Model;

/// Bytes in memory, which contracts see as those that are left. No call fails, and each moves as many bytes as
/// it can.
#[derive(Debug, Drop)]
pub struct SureSource {
    bytes: Vec<u8>,
    at: usize,
}

impl Model for SureSource {
    ghost use Rattle.std.specs.Prelude.{ℕ, ◌≤◌, List, drop, vec_len};

    ghost Value = { List ℕ };

    ghost view = { λ source. drop source.at source.bytes.items };

    ghost invariant = { λ source. source.at ≤ vec_len source.bytes };
}

impl SureSource {
    /// A source of these bytes.
    pub fn new(bytes: Vec<u8>) -> Self
        ensures { result ≡ bytes.items }
    {
        SureSource { bytes, at: 0 }
    }

    /// The bytes that are left.
    pub fn remaining(&self) -> &[u8]
        ensures { result.now ≡ self.now }
    {
        &self.bytes[self.at..]
    }
}

impl Source for SureSource {
    ghost left = { λ source. Some source };

    ghost gave = { λ before most bytes after. Gives (Some before) most bytes (Some after) };

    ghost faults = { λ _. 0 };

    fn read(&mut self, buf: &mut [u8]) -> Result<usize, Failed>
        ensures sure { IsOk result }
        ensures bound { ReadsAtMost result buf.new }
        ensures moved { ReadConsumes (Some self.old) (Some self.new) result buf.new }
        ensures given { IfOk result (λ count. Gives (Some self.old) (length buf.old) (take count buf.new) (Some self.new)) }
        ensures count { IfOk result (λ count. count ≡ min (length buf.old) (length self.old)) }
    {
        let count = buf.len().min(self.bytes.len() - self.at);
        buf[..count].copy_from_slice(&self.bytes[self.at..self.at + count]);
        self.at += count;
        Ok(count)
    }
}
