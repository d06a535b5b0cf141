// Words of a line behind its first one, each with the space before it.
ghost use Rattle.std.specs.Prelude.{◌≡◌, ◌++◌, [], ◌∷◌, OnOk, string_bytes};
ghost use Rattle.cb_asm_line.specs.Flags.{class_flags, field_flags, flags_word, method_flags};
ghost use Rattle.cb_asm_line.specs.Lines.{newline, space};
ghost use Rattle.cb_asm_line.specs.Numbers.{decimal, signed_decimal};
ghost use Rattle.cb_asm_line.specs.Operands.{label_word};
ghost use Rattle.cb_asm_line.specs.Quoting.{name_word, quoted};
ghost use Rattle.cb_asm_list.specs.Listing.{label_of};

use crate::places::Places;
use cb_asm_line::{push_class_flags, push_field_flags, push_method_flags, push_name, push_quoted};
use cb_plain::OutOfMemory;
use std::fmt::Write;

/// Adds the end of a line.
pub(crate) fn end_line(text: &mut String) -> Result<(), OutOfMemory>
    ensures { OnOk result (string_bytes text.new ≡ string_bytes text.old ++ newline ∷ []) }
{
    text.push_str("\n")
}

/// Adds a space and a word.
pub(crate) fn push_word(text: &mut String, word: &str) -> Result<(), OutOfMemory>
    ensures { OnOk result (string_bytes text.new ≡ string_bytes text.old ++ space ∷ word.now) }
{
    text.push_str(" ")?;
    text.push_str(word)
}

/// Adds a space and a name or descriptor.
pub(crate) fn push_name_word(text: &mut String, name: &[u16]) -> Result<(), OutOfMemory>
    ensures { OnOk result (string_bytes text.new ≡ string_bytes text.old ++ space ∷ name_word name.now) }
{
    text.push_str(" ")?;
    push_name(text, name)
}

/// Adds a space and a text in quotes.
pub(crate) fn push_quoted_word(text: &mut String, units: &[u16]) -> Result<(), OutOfMemory>
    ensures { OnOk result (string_bytes text.new ≡ string_bytes text.old ++ space ∷ quoted units.now) }
{
    text.push_str(" ")?;
    push_quoted(text, units)
}

/// Adds a space and the flags of a class.
pub(crate) fn push_class_flags_word(text: &mut String, flags: u16) -> Result<(), OutOfMemory>
    ensures { OnOk result (string_bytes text.new ≡ string_bytes text.old ++ space ∷ flags_word class_flags flags) }
{
    text.push_str(" ")?;
    push_class_flags(text, flags)
}

/// Adds a space and the flags of a field.
pub(crate) fn push_field_flags_word(text: &mut String, flags: u16) -> Result<(), OutOfMemory>
    ensures { OnOk result (string_bytes text.new ≡ string_bytes text.old ++ space ∷ flags_word field_flags flags) }
{
    text.push_str(" ")?;
    push_field_flags(text, flags)
}

/// Adds a space and the flags of a method.
pub(crate) fn push_method_flags_word(text: &mut String, flags: u16) -> Result<(), OutOfMemory>
    ensures { OnOk result (string_bytes text.new ≡ string_bytes text.old ++ space ∷ flags_word method_flags flags) }
{
    text.push_str(" ")?;
    push_method_flags(text, flags)
}

/// Adds a space and a number without a sign.
pub(crate) fn push_number(text: &mut String, number: u32) -> Result<(), OutOfMemory>
    ensures { OnOk result (string_bytes text.new ≡ string_bytes text.old ++ space ∷ decimal number) }
{
    write!(text, " {number}")
}

/// Adds a space and a number, with its sign where it is negative.
pub(crate) fn push_signed(text: &mut String, number: i64) -> Result<(), OutOfMemory>
    ensures { OnOk result (string_bytes text.new ≡ string_bytes text.old ++ space ∷ signed_decimal number) }
{
    write!(text, " {number}")
}

/// Adds a space and the label of a place.
pub(crate) fn push_label(text: &mut String, labels: &Places, place: u32) -> Result<(), OutOfMemory>
    ensures { OnOk result (string_bytes text.new ≡ string_bytes text.old
        ++ space ∷ label_word (label_of labels.now place)) }
{
    let number = labels.number(place);
    write!(text, " L{number}")
}
