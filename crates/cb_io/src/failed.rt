// That a call to the outside failed.
ghost use Rattle.std.specs.Prelude.{Some};
ghost use Rattle.cb_io.specs.Messages.{failed_text};

use std::error::Error;
use std::fmt;

/// The call failed, and the object's count of faults rose.
#[derive(Clone, Copy, Debug, PartialEq, Eq)]
pub struct Failed;

impl fmt::Display for Failed {
    ghost output = { λ _. Some failed_text };

    fn fmt<W: fmt::Write>(&self, f: &mut fmt::Formatter<W>) -> fmt::Result {
        f.write_str("an outside call failed")
    }
}

impl Error for Failed {}
