// A source of bytes.
ghost use Rattle.std.specs.Prelude.{ℕ, List, Option, IfOk, IsErr, length, take};
ghost use Rattle.std.specs.Io.{ReadsAtMost};
ghost use Rattle.std.specs.Io.KnownBytes.{ReadConsumes};
ghost use Rattle.cb_io.specs.Faults.{CountsFaults};

use crate::Failed;

/// Bytes that are read from front to back.
pub trait Source {
    /// The bytes that are left, where the source tells them.
    ghost left: { Self → Option (List ℕ) };

    /// What a call gave that asked a source for so many bytes at most, these, and which source it left. Code that works with any source learns
    /// it from a call alone, so a contract that names it tells that the source was asked, also where the source doesn't tell its bytes.
    ghost gave: { Self → ℕ → List ℕ → Self → Type 0 };

    /// How often a call has failed.
    ghost faults: { Self → ℕ };

    /// Moves bytes from the front of what is left to the front of `buf`, and tells how many: at least one where
    /// there is one and `buf` has room, so that 0 for a non-empty `buf` is the end. A failed call moves nothing.
    fn read(&mut self, buf: &mut [u8]) -> Result<usize, Failed>
        ensures bound { ReadsAtMost result buf.new }
        ensures moved { ReadConsumes (left self.old) (left self.new) result buf.new }
        ensures given { IfOk result (λ count. gave self.old (length buf.old) (take count buf.new) self.new) }
        ensures cause { CountsFaults (faults self.old) (faults self.new) (IsErr result) };
}
