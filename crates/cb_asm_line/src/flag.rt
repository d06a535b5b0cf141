// Access flags as they are written.
ghost use Rattle.std.specs.Prelude.{◌≡◌, ◌++◌, map, OnOk, string_bytes};
ghost use Rattle.cb_asm_line.specs.Flags.{class_flags, field_flags, flags_word, method_flags, set_words};
ghost use Rattle.cb_asm_line.specs.Inner.{word_behind, words_behind};

use std::alloc::AllocError as OutOfMemory;

/// The words of the flags of classes, from the lowest bit (JVMS table 4.1-A).
pub(crate) static CLASS_FLAGS: [&str; 16] = [
    "public",
    "bit1",
    "bit2",
    "bit3",
    "final",
    "super",
    "bit6",
    "bit7",
    "bit8",
    "interface",
    "abstract",
    "bit11",
    "synthetic",
    "annotation",
    "enum",
    "bit15",
];

/// Those of fields (JVMS table 4.5-A).
pub(crate) static FIELD_FLAGS: [&str; 16] = [
    "public",
    "private",
    "protected",
    "static",
    "final",
    "bit5",
    "volatile",
    "transient",
    "bit8",
    "bit9",
    "bit10",
    "bit11",
    "synthetic",
    "bit13",
    "enum",
    "bit15",
];

/// Those of methods (JVMS table 4.6-A).
pub(crate) static METHOD_FLAGS: [&str; 16] = [
    "public",
    "private",
    "protected",
    "static",
    "final",
    "synchronized",
    "bridge",
    "varargs",
    "native",
    "bit9",
    "abstract",
    "strict",
    "synthetic",
    "bit13",
    "bit14",
    "bit15",
];

/// Adds the words of the flags of a class.
pub fn push_class_flags(text: &mut String, flags: u16) -> Result<(), OutOfMemory>
    ensures { OnOk result (string_bytes text.new ≡ string_bytes text.old ++ flags_word class_flags flags) }
{
    push_flags(text, &CLASS_FLAGS, flags)
}

/// Adds those of a field.
pub fn push_field_flags(text: &mut String, flags: u16) -> Result<(), OutOfMemory>
    ensures { OnOk result (string_bytes text.new ≡ string_bytes text.old ++ flags_word field_flags flags) }
{
    push_flags(text, &FIELD_FLAGS, flags)
}

/// Adds those of a method.
pub fn push_method_flags(text: &mut String, flags: u16) -> Result<(), OutOfMemory>
    ensures { OnOk result (string_bytes text.new ≡ string_bytes text.old ++ flags_word method_flags flags) }
{
    push_flags(text, &METHOD_FLAGS, flags)
}

/// Adds the words of the flags that are set, by the words of all, with `+` between two, or `0`.
fn push_flags(text: &mut String, words: &[&'static str; 16], flags: u16) -> Result<(), OutOfMemory>
    ensures { OnOk result (string_bytes text.new ≡ string_bytes text.old ++ flags_word (map (λ word. word.now) words.now) flags) }
{
    if flags == 0 {
        return text.push_str("0");
    }
    push_set(text, words.as_slice(), flags, false)
}

/// Adds the words of the bits that are set, behind others or not.
#[tactic(auto, using(crate::proofs::Flagging::first_behind))]
fn push_set(
    text: &mut String,
    words: &[&'static str],
    flags: u16,
    begun: bool,
) -> Result<(), OutOfMemory>
    ensures { OnOk result (string_bytes text.new ≡ string_bytes text.old ++ words_behind begun (set_words (map (λ word. word.now) words.now) flags)) }
{
    match words {
        [] => Ok(()),
        [word, rest @ ..] if flags % 2 == 1 => {
            push_word(text, begun, word)?;
            push_set(text, rest, flags / 2, true)
        }
        [_, rest @ ..] => push_set(text, rest, flags / 2, begun),
    }
}

/// Adds a word, behind a `+` where it isn't the first.
fn push_word(text: &mut String, begun: bool, word: &str) -> Result<(), OutOfMemory>
    ensures { OnOk result (string_bytes text.new ≡ string_bytes text.old ++ word_behind begun word.now) }
{
    if begun {
        text.push_str("+")?;
    }
    text.push_str(word)
}
