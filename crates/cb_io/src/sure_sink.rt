// A sink that never fails.
ghost use Rattle.std.specs.Prelude.{◌≡◌, length, None, Ok};

use crate::{Failed, Sink};

/// A sink that takes all bytes, keeps nothing of them and tells nothing.
#[derive(Clone, Copy, Debug, Default)]
pub struct SureSink;

impl SureSink {
    /// A sink that has taken nothing.
    pub fn new() -> Self {
        SureSink
    }
}

impl Sink for SureSink {
    ghost taken = { λ _. None };

    ghost faults = { λ _. 0 };

    fn write(&mut self, bytes: &[u8]) -> Result<usize, Failed>
        ensures { result ≡ Ok (length bytes.now) }
    {
        Ok(bytes.len())
    }
}
