// What is printed.
use std::alloc::AllocError;

/// How long a line may be before it is broken.
const WIDE: usize = 100;

/// Prints bytes in lines behind a word: printable ASCII characters but the backslash as they are, the line feed as `\n`, and
/// other bytes as `\x` and two digits. A line ends behind a line feed, and where it has grown wide.
pub(crate) fn push_bytes(report: &mut String, word: &str, bytes: &[u8]) -> Result<(), AllocError> {
    let mut width = 0usize;
    for byte in bytes {
        if width == 0 {
            write!(report, "{word} ")?;
        }
        width = push_byte(report, *byte)?.saturating_add(width);
        if *byte == b'\n' || width >= WIDE {
            report.push('\n')?;
            width = 0;
        }
    }
    if width > 0 {
        report.push('\n')?;
    }
    Ok(())
}

/// Prints a byte, and gives how many characters that took.
fn push_byte(report: &mut String, byte: u8) -> Result<usize, AllocError> {
    match byte {
        b'\n' => {
            report.push_str("\\n")?;
            Ok(2)
        }
        b' '..=b'~' if byte != b'\\' => {
            report.push(char::from(byte))?;
            Ok(1)
        }
        _ => {
            write!(report, "\\x{byte:02X}")?;
            Ok(4)
        }
    }
}
