// A sink for bytes.
ghost use Rattle.std.specs.Prelude.{◌<◌, ℕ, List, Option, length, IfOk, IsErr, OnOk, OnErr};
ghost use Rattle.std.specs.Io.{WritesAtMost};
ghost use Rattle.std.specs.Io.KnownBytes.{Appends, WriteAppends};
ghost use Rattle.cb_io.specs.Faults.{CountsFaults};
ghost use Rattle.cb_io.specs.Sink.{TakesSome, AppendsProperPrefix};

use crate::Failed;

/// A place that takes bytes, one after the other.
pub trait Sink {
    /// The bytes that were taken, where the sink tells them.
    ghost taken: { Self → Option (List ℕ) };

    /// How often a call has failed.
    ghost faults: { Self → ℕ };

    /// Takes bytes from the front of `bytes`, and tells how many: at least one where there is one. A failed call
    /// takes nothing.
    fn write(&mut self, bytes: &[u8]) -> Result<usize, Failed>
        ensures bound { WritesAtMost result bytes.now }
        ensures some { IfOk result (TakesSome bytes.now) }
        ensures taken { WriteAppends (taken self.old) (taken self.new) result bytes.now }
        ensures cause { CountsFaults (faults self.old) (faults self.new) (IsErr result) };
}

impl<S: Sink> Sink for &mut S {
    ghost taken = { λ sink. S.taken sink.now };

    ghost faults = { λ sink. S.faults sink.now };

    fn write(&mut self, bytes: &[u8]) -> Result<usize, Failed> {
        Sink::write(&mut **self, bytes)
    }
}

/// Writes until all of `bytes` is taken, in as many calls as the sink wants. After a failed call the sink has
/// taken a proper prefix of them, and isn't called again.
pub fn write_all<S: Sink>(sink: &mut S, bytes: &[u8]) -> Result<(), Failed>
    ensures all { OnOk result (Appends (S.taken sink.old) (S.taken sink.new) bytes.now) }
    ensures part { OnErr result (AppendsProperPrefix (S.taken sink.old) (S.taken sink.new) bytes.now) }
    ensures cause { CountsFaults (S.faults sink.old) (S.faults sink.new) (IsErr result) }
{
    let mut rest = bytes;
    while !rest.is_empty() {
        let count = sink.write(rest)?;
        rest = &rest[count..];
    }
    Ok(())
}
