// Which native a method is, by the library's table: by the number of its class, and its place among the methods of the class.
ghost use Rattle.std.specs.Prelude.{◌≡◌};
ghost use Rattle.cb_machine.specs.Natives.{native_at};

use cb_library::Native;

/// The native at a place of a class of the library, if one stands there.
pub(crate) fn native_in(class: u32, place: u32) -> Option<Native>
    ensures { result ≡ native_at class place }
{
    match class {
        0 => of_object(place),
        8 => of_string(place),
        9 => of_string_builder(place),
        10 => of_class(place),
        11 => of_system(place),
        12 => of_print_stream(place),
        13 => of_input_stream(place),
        15 => of_integer(place),
        16 => of_long(place),
        17 => of_character(place),
        18 => of_boolean(place),
        19 => of_math(place),
        20 => of_enum(place),
        22 => of_throwable(place),
        _ => None,
    }
}

/// Of java/lang/Object.
fn of_object(place: u32) -> Option<Native>
    ensures { result ≡ native_at 0 place }
{
    match place {
        1 => Some(Native::ObjectGetClass),
        2 => Some(Native::ObjectHashCode),
        3 => Some(Native::ObjectEquals),
        5 => Some(Native::ObjectSay),
        6 => Some(Native::ObjectClone),
        _ => None,
    }
}

/// Of java/lang/String.
fn of_string(place: u32) -> Option<Native>
    ensures { result ≡ native_at 8 place }
{
    match place {
        0 => Some(Native::StringNew),
        1 => Some(Native::StringNewChars),
        2 => Some(Native::StringNewRange),
        3 => Some(Native::StringLength),
        4 => Some(Native::StringIsEmpty),
        5 => Some(Native::StringCharAt),
        6 => Some(Native::StringEquals),
        7 => Some(Native::StringHashCode),
        8 => Some(Native::StringCompareTo),
        9 => Some(Native::StringConcat),
        10 => Some(Native::StringSubstringFrom),
        11 => Some(Native::StringSubstring),
        12 => Some(Native::StringIndexOfUnit),
        13 => Some(Native::StringIndexOfString),
        14 => Some(Native::StringStartsWith),
        15 => Some(Native::StringEndsWith),
        16 => Some(Native::StringReplace),
        17 => Some(Native::StringToCharArray),
        18 => Some(Native::StringValueOfInt),
        19 => Some(Native::StringValueOfLong),
        20 => Some(Native::StringValueOfChar),
        21 => Some(Native::StringValueOfBoolean),
        22 => Some(Native::StringValueOfChars),
        _ => None,
    }
}

/// Of java/lang/StringBuilder.
fn of_string_builder(place: u32) -> Option<Native>
    ensures { result ≡ native_at 9 place }
{
    match place {
        0 => Some(Native::StringBuilderNew),
        1 => Some(Native::StringBuilderNewCapacity),
        2 => Some(Native::StringBuilderNewString),
        3 => Some(Native::StringBuilderAppendString),
        4 => Some(Native::StringBuilderAppendInt),
        5 => Some(Native::StringBuilderAppendLong),
        6 => Some(Native::StringBuilderAppendChar),
        7 => Some(Native::StringBuilderAppendBoolean),
        8 => Some(Native::StringBuilderAppendChars),
        9 => Some(Native::StringBuilderLength),
        10 => Some(Native::StringBuilderCharAt),
        11 => Some(Native::StringBuilderSetCharAt),
        12 => Some(Native::StringBuilderDeleteCharAt),
        13 => Some(Native::StringBuilderSetLength),
        14 => Some(Native::StringBuilderToString),
        _ => None,
    }
}

/// Of java/lang/Class.
fn of_class(place: u32) -> Option<Native>
    ensures { result ≡ native_at 10 place }
{
    match place {
        0 => Some(Native::ClassGetName),
        1 => Some(Native::ClassDesiredAssertionStatus),
        _ => None,
    }
}

/// Of java/lang/System.
fn of_system(place: u32) -> Option<Native>
    ensures { result ≡ native_at 11 place }
{
    match place {
        0 => Some(Native::SystemExit),
        1 => Some(Native::SystemArraycopy),
        2 => Some(Native::SystemIdentityHashCode),
        3 => Some(Native::SystemGc),
        _ => None,
    }
}

/// Of java/io/PrintStream.
fn of_print_stream(place: u32) -> Option<Native>
    ensures { result ≡ native_at 12 place }
{
    match place {
        0 => Some(Native::PrintBoolean),
        1 => Some(Native::PrintChar),
        2 => Some(Native::PrintInt),
        3 => Some(Native::PrintLong),
        4 => Some(Native::PrintString),
        5 => Some(Native::PrintlnBoolean),
        6 => Some(Native::PrintlnChar),
        7 => Some(Native::PrintlnInt),
        8 => Some(Native::PrintlnLong),
        9 => Some(Native::PrintlnString),
        10 => Some(Native::Println),
        11 => Some(Native::Flush),
        _ => None,
    }
}

/// Of java/io/InputStream.
fn of_input_stream(place: u32) -> Option<Native>
    ensures { result ≡ native_at 13 place }
{
    match place {
        0 => Some(Native::ReadByte),
        1 => Some(Native::ReadRange),
        _ => None,
    }
}

/// Of java/lang/Integer.
fn of_integer(place: u32) -> Option<Native>
    ensures { result ≡ native_at 15 place }
{
    match place {
        0 => Some(Native::IntegerNew),
        1 => Some(Native::IntegerValueOf),
        2 => Some(Native::IntegerParseInt),
        3 => Some(Native::IntegerTextOf),
        4 => Some(Native::IntegerCompare),
        5 => Some(Native::IntegerIntValue),
        6 => Some(Native::IntegerLongValue),
        7 => Some(Native::IntegerToString),
        8 => Some(Native::IntegerEquals),
        9 => Some(Native::IntegerHashCode),
        10 => Some(Native::IntegerCompareTo),
        11 => Some(Native::IntegerToHexString),
        _ => None,
    }
}

/// Of java/lang/Long.
fn of_long(place: u32) -> Option<Native>
    ensures { result ≡ native_at 16 place }
{
    match place {
        0 => Some(Native::LongNew),
        1 => Some(Native::LongValueOf),
        2 => Some(Native::LongParseLong),
        3 => Some(Native::LongTextOf),
        4 => Some(Native::LongCompare),
        5 => Some(Native::LongIntValue),
        6 => Some(Native::LongLongValue),
        7 => Some(Native::LongToString),
        8 => Some(Native::LongEquals),
        9 => Some(Native::LongHashCode),
        10 => Some(Native::LongCompareTo),
        _ => None,
    }
}

/// Of java/lang/Character.
fn of_character(place: u32) -> Option<Native>
    ensures { result ≡ native_at 17 place }
{
    match place {
        0 => Some(Native::CharacterNew),
        1 => Some(Native::CharacterValueOf),
        2 => Some(Native::CharacterCharValue),
        3 => Some(Native::CharacterTextOf),
        4 => Some(Native::CharacterToString),
        5 => Some(Native::CharacterEquals),
        6 => Some(Native::CharacterHashCode),
        7 => Some(Native::CharacterCompareTo),
        _ => None,
    }
}

/// Of java/lang/Boolean.
fn of_boolean(place: u32) -> Option<Native>
    ensures { result ≡ native_at 18 place }
{
    match place {
        0 => Some(Native::BooleanNew),
        1 => Some(Native::BooleanValueOf),
        2 => Some(Native::BooleanBooleanValue),
        3 => Some(Native::BooleanTextOf),
        4 => Some(Native::BooleanToString),
        5 => Some(Native::BooleanEquals),
        6 => Some(Native::BooleanHashCode),
        7 => Some(Native::BooleanCompareTo),
        _ => None,
    }
}

/// Of java/lang/Math.
fn of_math(place: u32) -> Option<Native>
    ensures { result ≡ native_at 19 place }
{
    match place {
        0 => Some(Native::MathAbsInt),
        1 => Some(Native::MathAbsLong),
        2 => Some(Native::MathMaxInt),
        3 => Some(Native::MathMaxLong),
        4 => Some(Native::MathMinInt),
        5 => Some(Native::MathMinLong),
        6 => Some(Native::MathFloorDivInt),
        7 => Some(Native::MathFloorDivLong),
        8 => Some(Native::MathFloorModInt),
        9 => Some(Native::MathFloorModLong),
        _ => None,
    }
}

/// Of java/lang/Enum.
fn of_enum(place: u32) -> Option<Native>
    ensures { result ≡ native_at 20 place }
{
    match place {
        4 => Some(Native::EnumEquals),
        5 => Some(Native::EnumHashCode),
        6 => Some(Native::EnumCompareTo),
        8 => Some(Native::EnumValueOf),
        _ => None,
    }
}

/// Of java/lang/Throwable.
fn of_throwable(place: u32) -> Option<Native>
    ensures { result ≡ native_at 22 place }
{
    match place {
        7 => Some(Native::ThrowableSay),
        8 => Some(Native::ThrowableAddSuppressed),
        9 => Some(Native::ThrowableGetSuppressed),
        _ => None,
    }
}
