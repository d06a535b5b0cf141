// Names and descriptors as they are written.
ghost use Rattle.std.specs.Prelude.{◌≡◌, ◌↔◌, ◌<◌, ◌++◌, [], ◌∷◌, IsTrue, OnOk, string_bytes, true, if◌then◌else◌};
ghost use Rattle.std.specs.List.{flat_map};
ghost use Rattle.std.specs.Fmt.{digit_glyph};
ghost use Rattle.cb_asm_line.specs.Quoting.{escape, is_plain as is_plain_unit, is_reserved as is_reserved_name, name_unit, name_word};

use std::alloc::AllocError as OutOfMemory;

/// Adds a name or descriptor. One that is just what stands in place of a name has its first unit escaped.
pub fn push_name(text: &mut String, name: &[u16]) -> Result<(), OutOfMemory>
    ensures { OnOk result (string_bytes text.new ≡ string_bytes text.old ++ name_word name.now) }
{
    match name {
        [] => Ok(()),
        [first, rest @ ..] => {
            push_first(text, *first, is_reserved(name))?;
            push_units(text, rest)
        }
    }
}

/// Whether a name is just what stands in place of one.
fn is_reserved(name: &[u16]) -> bool
    ensures { result ≡ is_reserved_name name.now }
{
    const NONE: [u16; 1] = [b'-' as u16];
    const ANY: [u16; 3] = [b'a' as u16, b'n' as u16, b'y' as u16];
    name == NONE.as_slice() || name == ANY.as_slice()
}

/// Adds the first unit of a name.
fn push_first(text: &mut String, unit: u16, reserved: bool) -> Result<(), OutOfMemory>
    ensures { OnOk result (string_bytes text.new ≡ string_bytes text.old ++ (if reserved then escape unit else name_unit unit)) }
{
    if reserved {
        push_escape(text, unit)
    } else {
        push_name_unit(text, unit)
    }
}

/// Adds the units of a name behind the first.
fn push_units(text: &mut String, units: &[u16]) -> Result<(), OutOfMemory>
    ensures { OnOk result (string_bytes text.new ≡ string_bytes text.old ++ flat_map name_unit units.now) }
{
    for unit in units {
        push_name_unit(text, *unit)?;
    }
    Ok(())
}

/// Adds a unit of a name: by itself, or escaped.
fn push_name_unit(text: &mut String, unit: u16) -> Result<(), OutOfMemory>
    ensures { OnOk result (string_bytes text.new ≡ string_bytes text.old ++ name_unit unit) }
{
    if is_plain(unit) {
        push_ascii(text, unit as u8)
    } else {
        push_escape(text, unit)
    }
}

/// Whether a unit stands in a name by itself.
pub(crate) fn is_plain(unit: u16) -> bool
    ensures { result ≡ is_plain_unit unit }
{
    (0x21..=0x7E).contains(&unit) && !matches!(unit, QUOTE | BACKSLASH | COMMA | COLON)
}

const QUOTE: u16 = b'"' as u16;

const BACKSLASH: u16 = b'\\' as u16;

const COMMA: u16 = b',' as u16;

const COLON: u16 = b':' as u16;

/// Adds a character of ASCII.
pub(crate) fn push_ascii(text: &mut String, unit: u8) -> Result<(), OutOfMemory>
    requires { unit < 128 }
    ensures { OnOk result (string_bytes text.new ≡ string_bytes text.old ++ unit ∷ []) }
{
    text.push(char::from(unit))
}

/// Adds the number of a unit behind a backslash and `u`, in four digits.
pub(crate) fn push_escape(text: &mut String, unit: u16) -> Result<(), OutOfMemory>
    ensures { OnOk result (string_bytes text.new ≡ string_bytes text.old ++ escape unit) }
{
    text.push_str("\\u")?;
    push_digit(text, unit / 0x1000)?;
    push_digit(text, unit / 0x100 % 0x10)?;
    push_digit(text, unit / 0x10 % 0x10)?;
    push_digit(text, unit % 0x10)?;
    Ok(())
}

/// Adds a hexadecimal digit, in upper case.
fn push_digit(text: &mut String, value: u16) -> Result<(), OutOfMemory>
    requires { value < 16 }
    ensures { OnOk result (string_bytes text.new ≡ string_bytes text.old ++ digit_glyph true value ∷ []) }
{
    let glyph = if value < 10 {
        b'0' + value as u8
    } else {
        b'A' + (value as u8 - 10)
    };
    push_ascii(text, glyph)
}
