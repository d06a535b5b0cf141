// What a command made is printed.
ghost use Rattle.std.specs.Prelude.{◌≡◌, ℕ, List, IfErr};
ghost use Rattle.std.specs.Io.KnownBytes.{Appends};
ghost use Rattle.cb_io.specs.Faults.{CountsFaults};
ghost use Rattle.cb_runner.specs.Inner.{Prints, PrintsMade};
ghost use Rattle.cb_runner.specs.declared.stop.Stop.TheVariants as stops;

use crate::stop::Stop;
use cb_io::{Failed, Sink, write_all};

/// Prints the bytes that a command made, if it made any.
pub(crate) fn print_made<O: Sink>(made: Result<Vec<u8>, Stop>, out: &mut O) -> Stop
    requires { IfErr made (λ stop. stop ≡ stops.OutputFault → ⊥) }
    ensures printed { (printed : List ℕ) × Appends (O.taken out.old) (O.taken out.new) printed
        × PrintsMade made result printed }
    ensures fault { CountsFaults (O.faults out.old) (O.faults out.new) (result ≡ stops.OutputFault) }
{
    match made {
        Ok(bytes) => print(bytes.as_slice(), out),
        Err(stop) => stop,
    }
}

/// Prints bytes.
fn print<O: Sink>(bytes: &[u8], out: &mut O) -> Stop
    ensures printed { (printed : List ℕ) × Appends (O.taken out.old) (O.taken out.new) printed
        × Prints bytes.now result printed }
    ensures fault { CountsFaults (O.faults out.old) (O.faults out.new) (result ≡ stops.OutputFault) }
{
    match write_all(out, bytes) {
        Ok(()) => Stop::Returned,
        Err(Failed) => Stop::OutputFault,
    }
}
