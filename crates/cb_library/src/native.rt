// The native members of the library's classes.
ghost use Rattle.std.specs.Prelude.{◌≡◌};
ghost use Rattle.cb_library.specs.NativeForms.{form_of};

/// A native member, named by its class and itself. The table in `specs/` says at which member each stands; behind each is
/// here the member of Java SE 8 that it is, or what it gives. They stand by their forms, in the order of `NativeForm`.
#[derive(Clone, Copy, Debug, PartialEq, Eq)]
pub enum Native {
    /// The text of `Object.toString`: class name, `@` and the number in hexadecimal.
    ObjectSay,
    /// `concat`.
    StringConcat,
    /// `substring(int)`.
    StringSubstringFrom,
    /// `substring(int, int)`.
    StringSubstring,
    /// `replace(char, char)`.
    StringReplace,
    /// `String.valueOf(int)`.
    StringValueOfInt,
    /// `String.valueOf(long)`.
    StringValueOfLong,
    /// `String.valueOf(char)`.
    StringValueOfChar,
    /// `String.valueOf(boolean)`.
    StringValueOfBoolean,
    /// `String.valueOf(char[])`.
    StringValueOfChars,
    /// `toString` of a StringBuilder.
    StringBuilderToString,
    /// `getName`, with dots.
    ClassGetName,
    /// Static `Integer.toString(int)`.
    IntegerTextOf,
    /// `toString` of an Integer.
    IntegerToString,
    /// `Integer.toHexString(int)`.
    IntegerToHexString,
    /// Static `Long.toString(long)`.
    LongTextOf,
    /// `toString` of a Long.
    LongToString,
    /// Static `Character.toString(char)`.
    CharacterTextOf,
    /// `toString` of a Character.
    CharacterToString,
    /// Static `Boolean.toString(boolean)`.
    BooleanTextOf,
    /// `toString` of a Boolean.
    BooleanToString,
    /// The text of `Throwable.toString`: class name, and `: ` with the message where there is one.
    ThrowableSay,
    /// A String without units.
    StringNew,
    /// A String of an array's units.
    StringNewChars,
    /// A String of a range of an array's units.
    StringNewRange,
    /// A StringBuilder with room for 16 units.
    StringBuilderNew,
    /// A StringBuilder with room for so many.
    StringBuilderNewCapacity,
    /// A StringBuilder of a String, with room for 16 more.
    StringBuilderNewString,
    /// `append(String)`.
    StringBuilderAppendString,
    /// `append(int)`.
    StringBuilderAppendInt,
    /// `append(long)`.
    StringBuilderAppendLong,
    /// `append(char)`.
    StringBuilderAppendChar,
    /// `append(boolean)`.
    StringBuilderAppendBoolean,
    /// `append(char[])`.
    StringBuilderAppendChars,
    /// `setCharAt`.
    StringBuilderSetCharAt,
    /// `deleteCharAt`.
    StringBuilderDeleteCharAt,
    /// `setLength`.
    StringBuilderSetLength,
    /// An Integer.
    IntegerNew,
    /// A Long.
    LongNew,
    /// A Character.
    CharacterNew,
    /// A Boolean.
    BooleanNew,
    /// `getClass`.
    ObjectGetClass,
    /// `Integer.valueOf(int)`.
    IntegerValueOf,
    /// `Long.valueOf(long)`.
    LongValueOf,
    /// `Character.valueOf(char)`.
    CharacterValueOf,
    /// `Boolean.valueOf(boolean)`.
    BooleanValueOf,
    /// `clone`.
    ObjectClone,
    /// `toCharArray`.
    StringToCharArray,
    /// `System.arraycopy`.
    SystemArraycopy,
    /// `addSuppressed`.
    ThrowableAddSuppressed,
    /// `getSuppressed`.
    ThrowableGetSuppressed,
    /// `print(boolean)`.
    PrintBoolean,
    /// `print(char)`.
    PrintChar,
    /// `print(int)`.
    PrintInt,
    /// `print(long)`.
    PrintLong,
    /// `print(String)`.
    PrintString,
    /// `println(boolean)`.
    PrintlnBoolean,
    /// `println(char)`.
    PrintlnChar,
    /// `println(int)`.
    PrintlnInt,
    /// `println(long)`.
    PrintlnLong,
    /// `println(String)`.
    PrintlnString,
    /// `println()`.
    Println,
    /// `read()`.
    ReadByte,
    /// `read(byte[], int, int)`.
    ReadRange,
    /// `System.exit`.
    SystemExit,
    /// `System.gc`.
    SystemGc,
    /// The identity hash.
    ObjectHashCode,
    /// Same object.
    ObjectEquals,
    /// `length` of a String.
    StringLength,
    /// `isEmpty`.
    StringIsEmpty,
    /// `charAt` of a String.
    StringCharAt,
    /// `equals` of a String.
    StringEquals,
    /// `hashCode` of a String.
    StringHashCode,
    /// `compareTo(String)`.
    StringCompareTo,
    /// `indexOf(int)`.
    StringIndexOfUnit,
    /// `indexOf(String)`.
    StringIndexOfString,
    /// `startsWith`.
    StringStartsWith,
    /// `endsWith`.
    StringEndsWith,
    /// `length` of a StringBuilder.
    StringBuilderLength,
    /// `charAt` of a StringBuilder.
    StringBuilderCharAt,
    /// False: assertions are off.
    ClassDesiredAssertionStatus,
    /// The identity hash, 0 for null.
    SystemIdentityHashCode,
    /// `flush`, which does nothing.
    Flush,
    /// `Integer.parseInt(String)`.
    IntegerParseInt,
    /// `Integer.compare(int, int)`.
    IntegerCompare,
    /// `intValue` of an Integer.
    IntegerIntValue,
    /// `longValue` of an Integer.
    IntegerLongValue,
    /// `equals` of an Integer.
    IntegerEquals,
    /// `hashCode` of an Integer.
    IntegerHashCode,
    /// `compareTo(Integer)`.
    IntegerCompareTo,
    /// `Long.parseLong(String)`.
    LongParseLong,
    /// `Long.compare(long, long)`.
    LongCompare,
    /// `intValue` of a Long.
    LongIntValue,
    /// `longValue` of a Long.
    LongLongValue,
    /// `equals` of a Long.
    LongEquals,
    /// `hashCode` of a Long.
    LongHashCode,
    /// `compareTo(Long)`.
    LongCompareTo,
    /// `charValue`.
    CharacterCharValue,
    /// `equals` of a Character.
    CharacterEquals,
    /// `hashCode` of a Character.
    CharacterHashCode,
    /// `compareTo(Character)`.
    CharacterCompareTo,
    /// `booleanValue`.
    BooleanBooleanValue,
    /// `equals` of a Boolean.
    BooleanEquals,
    /// `hashCode` of a Boolean.
    BooleanHashCode,
    /// `compareTo(Boolean)`.
    BooleanCompareTo,
    /// `Math.abs(int)`.
    MathAbsInt,
    /// `Math.abs(long)`.
    MathAbsLong,
    /// `Math.max(int, int)`.
    MathMaxInt,
    /// `Math.max(long, long)`.
    MathMaxLong,
    /// `Math.min(int, int)`.
    MathMinInt,
    /// `Math.min(long, long)`.
    MathMinLong,
    /// `Math.floorDiv(int, int)`.
    MathFloorDivInt,
    /// `Math.floorDiv(long, long)`.
    MathFloorDivLong,
    /// `Math.floorMod(int, int)`.
    MathFloorModInt,
    /// `Math.floorMod(long, long)`.
    MathFloorModLong,
    /// `equals` of an enum's value.
    EnumEquals,
    /// `hashCode` of an enum's value.
    EnumHashCode,
    /// `compareTo(Enum)`.
    EnumCompareTo,
    /// `Enum.valueOf(Class, String)`.
    EnumValueOf,
}

/// What kind of thing a native member does.
#[derive(Clone, Copy, Debug, PartialEq, Eq)]
pub enum NativeForm {
    /// It gives a new String.
    Text,
    /// It writes the fields of its receiver.
    OwnFields,
    /// It gives an object that one of the machine's tables keeps, and makes it where there is none yet.
    Table,
    /// It makes or fills an array, or copies an object.
    Array,
    /// It reaches what is outside the heap.
    Outside,
    /// It gives a number, an object that was there or nothing, and makes nothing but an exception.
    Answer,
}

impl Native {
    /// What kind of thing the native does.
    pub fn form(self) -> NativeForm
        ensures { result ≡ form_of self }
    {
        match self {
            Native::ObjectSay
            | Native::StringConcat
            | Native::StringSubstringFrom
            | Native::StringSubstring
            | Native::StringReplace
            | Native::StringValueOfInt
            | Native::StringValueOfLong
            | Native::StringValueOfChar
            | Native::StringValueOfBoolean
            | Native::StringValueOfChars
            | Native::StringBuilderToString
            | Native::ClassGetName
            | Native::IntegerTextOf
            | Native::IntegerToString
            | Native::IntegerToHexString
            | Native::LongTextOf
            | Native::LongToString
            | Native::CharacterTextOf
            | Native::CharacterToString
            | Native::BooleanTextOf
            | Native::BooleanToString
            | Native::ThrowableSay => NativeForm::Text,
            Native::StringNew
            | Native::StringNewChars
            | Native::StringNewRange
            | Native::StringBuilderNew
            | Native::StringBuilderNewCapacity
            | Native::StringBuilderNewString
            | Native::StringBuilderAppendString
            | Native::StringBuilderAppendInt
            | Native::StringBuilderAppendLong
            | Native::StringBuilderAppendChar
            | Native::StringBuilderAppendBoolean
            | Native::StringBuilderAppendChars
            | Native::StringBuilderSetCharAt
            | Native::StringBuilderDeleteCharAt
            | Native::StringBuilderSetLength
            | Native::IntegerNew
            | Native::LongNew
            | Native::CharacterNew
            | Native::BooleanNew => NativeForm::OwnFields,
            Native::ObjectGetClass
            | Native::IntegerValueOf
            | Native::LongValueOf
            | Native::CharacterValueOf
            | Native::BooleanValueOf => NativeForm::Table,
            Native::ObjectClone
            | Native::StringToCharArray
            | Native::SystemArraycopy
            | Native::ThrowableAddSuppressed
            | Native::ThrowableGetSuppressed => NativeForm::Array,
            Native::PrintBoolean
            | Native::PrintChar
            | Native::PrintInt
            | Native::PrintLong
            | Native::PrintString
            | Native::PrintlnBoolean
            | Native::PrintlnChar
            | Native::PrintlnInt
            | Native::PrintlnLong
            | Native::PrintlnString
            | Native::Println
            | Native::ReadByte
            | Native::ReadRange
            | Native::SystemExit
            | Native::SystemGc => NativeForm::Outside,
            Native::ObjectHashCode
            | Native::ObjectEquals
            | Native::StringLength
            | Native::StringIsEmpty
            | Native::StringCharAt
            | Native::StringEquals
            | Native::StringHashCode
            | Native::StringCompareTo
            | Native::StringIndexOfUnit
            | Native::StringIndexOfString
            | Native::StringStartsWith
            | Native::StringEndsWith
            | Native::StringBuilderLength
            | Native::StringBuilderCharAt
            | Native::ClassDesiredAssertionStatus
            | Native::SystemIdentityHashCode
            | Native::Flush => NativeForm::Answer,
            Native::IntegerParseInt
            | Native::IntegerCompare
            | Native::IntegerIntValue
            | Native::IntegerLongValue
            | Native::IntegerEquals
            | Native::IntegerHashCode
            | Native::IntegerCompareTo
            | Native::LongParseLong
            | Native::LongCompare
            | Native::LongIntValue
            | Native::LongLongValue
            | Native::LongEquals
            | Native::LongHashCode
            | Native::LongCompareTo
            | Native::CharacterCharValue
            | Native::CharacterEquals
            | Native::CharacterHashCode
            | Native::CharacterCompareTo
            | Native::BooleanBooleanValue
            | Native::BooleanEquals
            | Native::BooleanHashCode
            | Native::BooleanCompareTo => NativeForm::Answer,
            Native::MathAbsInt
            | Native::MathAbsLong
            | Native::MathMaxInt
            | Native::MathMaxLong
            | Native::MathMinInt
            | Native::MathMinLong
            | Native::MathFloorDivInt
            | Native::MathFloorDivLong
            | Native::MathFloorModInt
            | Native::MathFloorModLong
            | Native::EnumEquals
            | Native::EnumHashCode
            | Native::EnumCompareTo
            | Native::EnumValueOf => NativeForm::Answer,
        }
    }
}
