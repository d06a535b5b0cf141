// The name of the class that is run, in a word and as an internal name (JVMS §4.2.1).
ghost use Rattle.std.specs.Prelude.{◌≡◌, ◌++◌, IfOk, OnOk};
ghost use Rattle.std.specs.Char.Escape.{encode_utf16};
ghost use Rattle.cb_runner.specs.Words.{internal_name, is_part, is_separator, names_class};

use cb_plain::OutOfMemory;
use cb_text::Units;
use std::alloc::Global;

/// Whether a word names a class: `.` and `/` separate its parts, of which none is empty or has `;` or `[`.
pub(crate) fn names_class(word: &str) -> bool
    ensures { result ≡ names_class word.now }
{
    word.as_bytes()
        .split(|byte| is_separator(*byte))
        .all(|part| is_part(part))
}

/// Whether a sign separates parts.
fn is_separator(sign: u8) -> bool
    ensures { result ≡ is_separator sign }
{
    sign == b'.' || sign == b'/'
}

/// Whether the bytes are a part of a class's name.
fn is_part(part: &[u8]) -> bool
    ensures { result ≡ is_part part.now }
{
    !part.is_empty() && part.iter().all(|byte| *byte != b';' && *byte != b'[')
}

/// The internal name of the class that a word names.
pub(crate) fn internal_name(alloc: Global, word: &str) -> Result<Units, OutOfMemory>
    ensures { IfOk result (λ name. name ≡ internal_name word.now) }
{
    let mut name = Units::new(alloc);
    for character in word.chars() {
        push_units(if character == '.' { '/' } else { character }, &mut name)?;
    }
    Ok(name)
}

/// Adds the UTF-16 units of a character.
pub(crate) fn push_units(character: char, name: &mut Units) -> Result<(), OutOfMemory>
    ensures { OnOk result (name.new ≡ name.old ++ encode_utf16 character) }
{
    let mut buffer = [0; 2];
    for unit in character.encode_utf16(&mut buffer).iter() {
        name.push(*unit)?;
    }
    Ok(())
}
