// What natives that print a boolean, a char or a number write.
ghost use Rattle.std.specs.Prelude.{◌≡◌, ◌<◌, ◌==◌, [], ◌∷◌, length, pos, true, IsAscii, IsErr, OnErr, OnOk, Some, false};
ghost use Rattle.std.specs.Io.KnownBytes.{Appends};
ghost use Rattle.cb_arith.specs.Bits.{low_bits};
ghost use Rattle.cb_frames.specs.Tops.{top_stack};
ghost use Rattle.cb_io.specs.Faults.{CountsFaults};
ghost use Rattle.cb_io.specs.Sink.{AppendsProperPrefix};
ghost use Rattle.cb_io.specs.Utf8.{utf8};
ghost use Rattle.cb_machine.specs.Texts.{digits, truth, unit_of};
ghost use Rattle.cb_library.specs.declared.native.Native.{Native};
ghost use Rattle.cb_interp.specs.Printing.{as_line, print_of, suits, units_on};

use cb_act::{int_at, long_at};
use cb_arith::{Narrow, narrow};
use cb_frames::Roots;
use cb_io::{Failed, Sink, utf8_of, write_all};
use cb_library::Native;
use itoa::Buffer;

/// The longest text of a number or a boolean, and a newline.
const LONGEST_LINE: usize = 21;

/// The end of a line, as a unit.
pub(crate) const NEWLINE: u16 = 10;

/// What a native prints: the value on top of the stack, with a newline behind it or without, or a newline alone (Java SE 8 API,
/// java.io.PrintStream).
#[derive(Clone, Copy, Debug, Drop, Eq, PartialEq)]
pub(crate) enum Print {
    /// A boolean.
    Truth { line: bool },
    /// A char.
    Char { line: bool },
    /// An int.
    Int { line: bool },
    /// A long.
    Long { line: bool },
    /// A newline.
    Line,
}

/// What a native prints, if it prints a boolean, a char, a number or a newline.
pub(crate) fn print_of(native: Native) -> Option<Print>
    ensures { result ≡ print_of native }
{
    match native {
        Native::PrintBoolean => Some(Print::Truth { line: false }),
        Native::PrintlnBoolean => Some(Print::Truth { line: true }),
        Native::PrintChar => Some(Print::Char { line: false }),
        Native::PrintlnChar => Some(Print::Char { line: true }),
        Native::PrintInt => Some(Print::Int { line: false }),
        Native::PrintlnInt => Some(Print::Int { line: true }),
        Native::PrintLong => Some(Print::Long { line: false }),
        Native::PrintlnLong => Some(Print::Long { line: true }),
        Native::Println => Some(Print::Line),
        _ => None,
    }
}

/// Writes what a native prints of the value on top of the stack, as UTF-8. After a failed call a proper prefix of it was taken. A call
/// writes a text at most once, unless the sink takes less than the whole.
pub(crate) fn write_print<O: Sink>(roots: &Roots, print: Print, out: &mut O) -> Result<(), Failed>
    requires { suits print (top_stack roots.now.roots) ≡ true }
    ensures all { OnOk result (Appends (O.taken out.old) (O.taken out.new) (utf8 (units_on print
        (top_stack roots.now.roots)))) }
    ensures part { OnErr result (AppendsProperPrefix (O.taken out.old) (O.taken out.new) (utf8
        (units_on print (top_stack roots.now.roots)))) }
    ensures cause { CountsFaults (O.faults out.old) (O.faults out.new) (IsErr result) }
{
    match print {
        Print::Truth { line } => write_truth(int_at(roots, 0), line, out),
        Print::Char { line } => write_char(int_at(roots, 0), line, out),
        Print::Int { line } => write_number(i64::from(int_at(roots, 0)), line, out),
        Print::Long { line } => write_number(long_at(roots, 0), line, out),
        Print::Line => write_text(b"", true, out),
    }
}

/// Writes `true` or `false`, by the lowest bit of a number.
fn write_truth<O: Sink>(number: i32, line: bool, out: &mut O) -> Result<(), Failed>
    ensures all { OnOk result (Appends (O.taken out.old) (O.taken out.new) (utf8
        (as_line line (truth number)))) }
    ensures part { OnErr result (AppendsProperPrefix (O.taken out.old) (O.taken out.new) (utf8
        (as_line line (truth number)))) }
    ensures cause { CountsFaults (O.faults out.old) (O.faults out.new) (IsErr result) }
{
    if is_true(number) {
        write_text(b"true", line, out)
    } else {
        write_text(b"false", line, out)
    }
}

/// Whether a number is a boolean that is true: it counts by its lowest bit.
fn is_true(number: i32) -> bool
    ensures { result ≡ (low_bits 1 number == 1) }
{
    low_bit(number) == 1
}

/// The lowest bit of a number.
fn low_bit(number: i32) -> i32
    ensures { result ≡ pos (low_bits 1 number) }
{
    number & 1
}

/// Writes the unit that the low 16 bits of a number are. Alone it is `?` where it is a surrogate.
fn write_char<O: Sink>(number: i32, line: bool, out: &mut O) -> Result<(), Failed>
    ensures all { OnOk result (Appends (O.taken out.old) (O.taken out.new) (utf8
        (as_line line (unit_of number ∷ [])))) }
    ensures part { OnErr result (AppendsProperPrefix (O.taken out.old) (O.taken out.new) (utf8
        (as_line line (unit_of number ∷ [])))) }
    ensures cause { CountsFaults (O.faults out.old) (O.faults out.new) (IsErr result) }
{
    let unit = unit_of(number);
    if line {
        utf8_of(&[unit, NEWLINE], out)
    } else {
        utf8_of(&[unit], out)
    }
}

/// The low 16 bits of a number.
fn unit_of(number: i32) -> u16
    ensures { result ≡ unit_of number }
{
    narrow(Narrow::Char, number) as u16
}

/// Writes a number in decimal.
fn write_number<O: Sink>(number: i64, line: bool, out: &mut O) -> Result<(), Failed>
    ensures all { OnOk result (Appends (O.taken out.old) (O.taken out.new) (utf8
        (as_line line (digits number)))) }
    ensures part { OnErr result (AppendsProperPrefix (O.taken out.old) (O.taken out.new) (utf8
        (as_line line (digits number)))) }
    ensures cause { CountsFaults (O.faults out.old) (O.faults out.new) (IsErr result) }
{
    let mut buffer = Buffer::new();
    let text = buffer.format(number).as_bytes();
    write_text(text, line, out)
}

/// Writes a short text in ASCII.
pub(crate) fn write_text<O: Sink>(text: &[u8], line: bool, out: &mut O) -> Result<(), Failed>
    requires ascii { IsAscii text.now }
    requires short { length text.now < LONGEST_LINE }
    ensures all { OnOk result (Appends (O.taken out.old) (O.taken out.new) (utf8
        (as_line line text.now))) }
    ensures part { OnErr result (AppendsProperPrefix (O.taken out.old) (O.taken out.new) (utf8
        (as_line line text.now))) }
    ensures cause { CountsFaults (O.faults out.old) (O.faults out.new) (IsErr result) }
{
    if line {
        let mut bytes = [b'\n'; LONGEST_LINE];
        bytes[..text.len()].copy_from_slice(text);
        write_all(out, &bytes[..=text.len()])
    } else {
        write_all(out, text)
    }
}
