// The library's classes 8, 9, 12 and 13: String, StringBuilder, PrintStream and InputStream (Java SE 8 API, java.lang and
// java.io).
use crate::flags::{ABSTRACT_CLASS, FINAL_CLASS, PRIVATE, PUBLIC, PUBLIC_CLASS, STATIC};
use crate::instructions::{
    ALOAD_0, ALOAD_1, ARETURN, ARRAYLENGTH, ICONST_0, IRETURN, RETURN, compares, ifnonnull,
    invokestatic, invokevirtual, ldc,
};
use crate::names::{
    AUTO_CLOSEABLE, CHAR_SEQUENCE, COMPARABLE, INPUT_STREAM, OBJECT, PRINT_STREAM, SERIALIZABLE,
    STRING, STRING_BUILDER,
};
use crate::row::{CoreClass, Kind};
use crate::words::{branches, field, method, native, runs};

// Gives "null" for null, and else what `toString` gives.
const STRING_VALUE_OF: Kind = branches!(1, 1; [
    ALOAD_0,
    ifnonnull!(4),
    ldc!("null"),
    ARETURN,
    ALOAD_0,
    invokevirtual!(OBJECT, "toString", "()Ljava/lang/String;"),
    ARETURN,
], frame(4, [OBJECT]));

pub(crate) const STRING_CLASS: CoreClass = CoreClass {
    flags: FINAL_CLASS,
    name: STRING,
    superclass: Some(OBJECT),
    interfaces: &[COMPARABLE, CHAR_SEQUENCE, SERIALIZABLE],
    fields: &[field!(PRIVATE; "value", "[C")],
    methods: &[
        native!(PUBLIC; "<init>", "()V", StringNew),
        native!(PUBLIC; "<init>", "([C)V", StringNewChars),
        native!(PUBLIC; "<init>", "([CII)V", StringNewRange),
        native!(PUBLIC; "length", "()I", StringLength),
        native!(PUBLIC; "isEmpty", "()Z", StringIsEmpty),
        native!(PUBLIC; "charAt", "(I)C", StringCharAt),
        native!(PUBLIC; "equals", "(Ljava/lang/Object;)Z", StringEquals),
        native!(PUBLIC; "hashCode", "()I", StringHashCode),
        native!(PUBLIC; "compareTo", "(Ljava/lang/String;)I", StringCompareTo),
        native!(PUBLIC; "concat", "(Ljava/lang/String;)Ljava/lang/String;", StringConcat),
        native!(PUBLIC; "substring", "(I)Ljava/lang/String;", StringSubstringFrom),
        native!(PUBLIC; "substring", "(II)Ljava/lang/String;", StringSubstring),
        native!(PUBLIC; "indexOf", "(I)I", StringIndexOfUnit),
        native!(PUBLIC; "indexOf", "(Ljava/lang/String;)I", StringIndexOfString),
        native!(PUBLIC; "startsWith", "(Ljava/lang/String;)Z", StringStartsWith),
        native!(PUBLIC; "endsWith", "(Ljava/lang/String;)Z", StringEndsWith),
        native!(PUBLIC; "replace", "(CC)Ljava/lang/String;", StringReplace),
        native!(PUBLIC; "toCharArray", "()[C", StringToCharArray),
        native!(PUBLIC | STATIC; "valueOf", "(I)Ljava/lang/String;", StringValueOfInt),
        native!(PUBLIC | STATIC; "valueOf", "(J)Ljava/lang/String;", StringValueOfLong),
        native!(PUBLIC | STATIC; "valueOf", "(C)Ljava/lang/String;", StringValueOfChar),
        native!(PUBLIC | STATIC; "valueOf", "(Z)Ljava/lang/String;", StringValueOfBoolean),
        native!(PUBLIC | STATIC; "valueOf", "([C)Ljava/lang/String;", StringValueOfChars),
        method!(PUBLIC; "toString", "()Ljava/lang/String;", runs!(1, 1; [ALOAD_0, ARETURN])),
        method!(PUBLIC | STATIC; "valueOf", "(Ljava/lang/Object;)Ljava/lang/String;", STRING_VALUE_OF),
        method!(PUBLIC; "compareTo", "(Ljava/lang/Object;)I", compares!(STRING, "(Ljava/lang/String;)I")),
    ],
};

// `append` of an object appends what `String.valueOf` gives.
const APPENDS: Kind = runs!(2, 2; [
    ALOAD_0,
    ALOAD_1,
    invokestatic!(STRING, "valueOf", "(Ljava/lang/Object;)Ljava/lang/String;"),
    invokevirtual!(STRING_BUILDER, "append", "(Ljava/lang/String;)Ljava/lang/StringBuilder;"),
    ARETURN,
]);

pub(crate) const STRING_BUILDER_CLASS: CoreClass = CoreClass {
    flags: FINAL_CLASS,
    name: STRING_BUILDER,
    superclass: Some(OBJECT),
    interfaces: &[CHAR_SEQUENCE, SERIALIZABLE],
    fields: &[
        field!(PRIVATE; "value", "[C"),
        field!(PRIVATE; "count", "I"),
    ],
    methods: &[
        native!(PUBLIC; "<init>", "()V", StringBuilderNew),
        native!(PUBLIC; "<init>", "(I)V", StringBuilderNewCapacity),
        native!(PUBLIC; "<init>", "(Ljava/lang/String;)V", StringBuilderNewString),
        native!(PUBLIC; "append", "(Ljava/lang/String;)Ljava/lang/StringBuilder;", StringBuilderAppendString),
        native!(PUBLIC; "append", "(I)Ljava/lang/StringBuilder;", StringBuilderAppendInt),
        native!(PUBLIC; "append", "(J)Ljava/lang/StringBuilder;", StringBuilderAppendLong),
        native!(PUBLIC; "append", "(C)Ljava/lang/StringBuilder;", StringBuilderAppendChar),
        native!(PUBLIC; "append", "(Z)Ljava/lang/StringBuilder;", StringBuilderAppendBoolean),
        native!(PUBLIC; "append", "([C)Ljava/lang/StringBuilder;", StringBuilderAppendChars),
        native!(PUBLIC; "length", "()I", StringBuilderLength),
        native!(PUBLIC; "charAt", "(I)C", StringBuilderCharAt),
        native!(PUBLIC; "setCharAt", "(IC)V", StringBuilderSetCharAt),
        native!(PUBLIC; "deleteCharAt", "(I)Ljava/lang/StringBuilder;", StringBuilderDeleteCharAt),
        native!(PUBLIC; "setLength", "(I)V", StringBuilderSetLength),
        native!(PUBLIC; "toString", "()Ljava/lang/String;", StringBuilderToString),
        method!(PUBLIC; "append", "(Ljava/lang/Object;)Ljava/lang/StringBuilder;", APPENDS),
        method!(PUBLIC; "append", "(Ljava/lang/CharSequence;)Ljava/lang/StringBuilder;", APPENDS),
    ],
};

// `print` and `println` of an object print what `String.valueOf` gives.
macro_rules! prints {
    ($name:expr) => {
        runs!(2, 2; [
            ALOAD_0,
            ALOAD_1,
            invokestatic!(STRING, "valueOf", "(Ljava/lang/Object;)Ljava/lang/String;"),
            invokevirtual!(PRINT_STREAM, $name, "(Ljava/lang/String;)V"),
            RETURN,
        ])
    };
}

pub(crate) const PRINT_STREAM_CLASS: CoreClass = CoreClass {
    flags: PUBLIC_CLASS,
    name: PRINT_STREAM,
    superclass: Some(OBJECT),
    interfaces: &[AUTO_CLOSEABLE],
    fields: &[],
    methods: &[
        native!(PUBLIC; "print", "(Z)V", PrintBoolean),
        native!(PUBLIC; "print", "(C)V", PrintChar),
        native!(PUBLIC; "print", "(I)V", PrintInt),
        native!(PUBLIC; "print", "(J)V", PrintLong),
        native!(PUBLIC; "print", "(Ljava/lang/String;)V", PrintString),
        native!(PUBLIC; "println", "(Z)V", PrintlnBoolean),
        native!(PUBLIC; "println", "(C)V", PrintlnChar),
        native!(PUBLIC; "println", "(I)V", PrintlnInt),
        native!(PUBLIC; "println", "(J)V", PrintlnLong),
        native!(PUBLIC; "println", "(Ljava/lang/String;)V", PrintlnString),
        native!(PUBLIC; "println", "()V", Println),
        native!(PUBLIC; "flush", "()V", Flush),
        method!(PUBLIC; "print", "(Ljava/lang/Object;)V", prints!("print")),
        method!(PUBLIC; "println", "(Ljava/lang/Object;)V", prints!("println")),
    ],
};

// Reads into the whole array.
const READ_ARRAY: Kind = runs!(4, 2; [
    ALOAD_0,
    ALOAD_1,
    ICONST_0,
    ALOAD_1,
    ARRAYLENGTH,
    invokevirtual!(INPUT_STREAM, "read", "([BII)I"),
    IRETURN,
]);

pub(crate) const INPUT_STREAM_CLASS: CoreClass = CoreClass {
    flags: ABSTRACT_CLASS,
    name: INPUT_STREAM,
    superclass: Some(OBJECT),
    interfaces: &[AUTO_CLOSEABLE],
    fields: &[],
    methods: &[
        native!(PUBLIC; "read", "()I", ReadByte),
        native!(PUBLIC; "read", "([BII)I", ReadRange),
        method!(PUBLIC; "read", "([B)I", READ_ARRAY),
    ],
};
