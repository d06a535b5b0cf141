// Which natives give a new String.
ghost use Rattle.std.specs.Prelude.{◌≡◌};
ghost use Rattle.cb_natives.specs.MakingTexts.{makes_box_text, makes_text, makes_value_text};

use cb_library::Native;

/// Whether a native gives a new String.
pub(crate) fn makes_text(native: Native) -> bool
    ensures { result ≡ makes_text native }
{
    match native {
        Native::ObjectSay
        | Native::StringConcat
        | Native::StringSubstringFrom
        | Native::StringSubstring
        | Native::StringReplace
        | Native::StringBuilderToString
        | Native::ClassGetName
        | Native::ThrowableSay => true,
        _ => makes_value_text(native),
    }
}

/// Of a value, or a number, a char or a boolean.
fn makes_value_text(native: Native) -> bool
    ensures { result ≡ makes_value_text native }
{
    match native {
        Native::StringValueOfInt
        | Native::StringValueOfLong
        | Native::StringValueOfChar
        | Native::StringValueOfBoolean
        | Native::StringValueOfChars => true,
        _ => makes_box_text(native),
    }
}

/// Of a number, a char or a boolean.
fn makes_box_text(native: Native) -> bool
    ensures { result ≡ makes_box_text native }
{
    match native {
        Native::IntegerTextOf
        | Native::IntegerToString
        | Native::IntegerToHexString
        | Native::LongTextOf
        | Native::LongToString
        | Native::CharacterTextOf
        | Native::CharacterToString
        | Native::BooleanTextOf
        | Native::BooleanToString => true,
        _ => false,
    }
}
