// Which natives give a number or nothing.
ghost use Rattle.std.specs.Prelude.{◌≡◌};
ghost use Rattle.cb_natives.specs.Answers.{gives_answer, gives_box, gives_math, gives_text};

use cb_library::Native;

/// Whether a native gives a number or nothing, and places nothing but an exception.
pub fn gives_answer(native: Native) -> bool
    ensures { result ≡ gives_answer native }
{
    match native {
        Native::ObjectHashCode
        | Native::ObjectEquals
        | Native::SystemIdentityHashCode
        | Native::ClassDesiredAssertionStatus
        | Native::Flush
        | Native::EnumEquals
        | Native::EnumHashCode
        | Native::EnumCompareTo => true,
        _ => gives_text(native),
    }
}

/// Of a text, or a box or a number.
fn gives_text(native: Native) -> bool
    ensures { result ≡ gives_text native }
{
    match native {
        Native::StringLength
        | Native::StringIsEmpty
        | Native::StringCharAt
        | Native::StringEquals
        | Native::StringHashCode
        | Native::StringCompareTo
        | Native::StringIndexOfUnit
        | Native::StringIndexOfString
        | Native::StringStartsWith
        | Native::StringEndsWith
        | Native::StringBuilderLength
        | Native::StringBuilderCharAt => true,
        _ => gives_box(native),
    }
}

/// Of a box, or a number.
fn gives_box(native: Native) -> bool
    ensures { result ≡ gives_box native }
{
    match native {
        Native::IntegerParseInt
        | Native::IntegerCompare
        | Native::IntegerIntValue
        | Native::IntegerLongValue
        | Native::IntegerEquals
        | Native::IntegerHashCode
        | Native::IntegerCompareTo
        | Native::LongParseLong
        | Native::LongCompare
        | Native::LongIntValue
        | Native::LongLongValue
        | Native::LongEquals
        | Native::LongHashCode
        | Native::LongCompareTo
        | Native::CharacterCharValue
        | Native::CharacterEquals
        | Native::CharacterHashCode
        | Native::CharacterCompareTo
        | Native::BooleanBooleanValue
        | Native::BooleanEquals
        | Native::BooleanHashCode
        | Native::BooleanCompareTo => true,
        _ => gives_math(native),
    }
}

/// Of a number.
fn gives_math(native: Native) -> bool
    ensures { result ≡ gives_math native }
{
    match native {
        Native::MathAbsInt
        | Native::MathAbsLong
        | Native::MathMaxInt
        | Native::MathMaxLong
        | Native::MathMinInt
        | Native::MathMinLong
        | Native::MathFloorDivInt
        | Native::MathFloorDivLong
        | Native::MathFloorModInt
        | Native::MathFloorModLong => true,
        _ => false,
    }
}
