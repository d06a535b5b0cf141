// The library's classes 14 to 18: Number, Integer, Long, Character and Boolean (Java SE 8 API, java.lang).
use crate::flags::{ABSTRACT_CLASS, FINAL_CLASS, PRIVATE, PUBLIC, STATIC};
use crate::instructions::{ALOAD_0, RETURN, compares, invokespecial};
use crate::names::{BOOLEAN, CHARACTER, COMPARABLE, INTEGER, LONG, NUMBER, OBJECT, SERIALIZABLE};
use crate::row::{CoreClass, Kind};
use crate::words::{abstract_method, field, method, native, runs};

const NUMBER_NEW: Kind = runs!(1, 1; [
    ALOAD_0,
    invokespecial!(OBJECT, "<init>", "()V"),
    RETURN,
]);

pub(crate) const NUMBER_CLASS: CoreClass = CoreClass {
    flags: ABSTRACT_CLASS,
    name: NUMBER,
    superclass: Some(OBJECT),
    interfaces: &[SERIALIZABLE],
    fields: &[],
    methods: &[
        method!(PUBLIC; "<init>", "()V", NUMBER_NEW),
        abstract_method!(PUBLIC; "intValue", "()I"),
        abstract_method!(PUBLIC; "longValue", "()J"),
    ],
};

pub(crate) const INTEGER_CLASS: CoreClass = CoreClass {
    flags: FINAL_CLASS,
    name: INTEGER,
    superclass: Some(NUMBER),
    interfaces: &[COMPARABLE, SERIALIZABLE],
    fields: &[field!(PRIVATE; "value", "I")],
    methods: &[
        native!(PUBLIC; "<init>", "(I)V", IntegerNew),
        native!(PUBLIC | STATIC; "valueOf", "(I)Ljava/lang/Integer;", IntegerValueOf),
        native!(PUBLIC | STATIC; "parseInt", "(Ljava/lang/String;)I", IntegerParseInt),
        native!(PUBLIC | STATIC; "toString", "(I)Ljava/lang/String;", IntegerTextOf),
        native!(PUBLIC | STATIC; "compare", "(II)I", IntegerCompare),
        native!(PUBLIC; "intValue", "()I", IntegerIntValue),
        native!(PUBLIC; "longValue", "()J", IntegerLongValue),
        native!(PUBLIC; "toString", "()Ljava/lang/String;", IntegerToString),
        native!(PUBLIC; "equals", "(Ljava/lang/Object;)Z", IntegerEquals),
        native!(PUBLIC; "hashCode", "()I", IntegerHashCode),
        native!(PUBLIC; "compareTo", "(Ljava/lang/Integer;)I", IntegerCompareTo),
        native!(PUBLIC | STATIC; "toHexString", "(I)Ljava/lang/String;", IntegerToHexString),
        method!(PUBLIC; "compareTo", "(Ljava/lang/Object;)I", compares!(INTEGER, "(Ljava/lang/Integer;)I")),
    ],
};

pub(crate) const LONG_CLASS: CoreClass = CoreClass {
    flags: FINAL_CLASS,
    name: LONG,
    superclass: Some(NUMBER),
    interfaces: &[COMPARABLE, SERIALIZABLE],
    fields: &[field!(PRIVATE; "value", "J")],
    methods: &[
        native!(PUBLIC; "<init>", "(J)V", LongNew),
        native!(PUBLIC | STATIC; "valueOf", "(J)Ljava/lang/Long;", LongValueOf),
        native!(PUBLIC | STATIC; "parseLong", "(Ljava/lang/String;)J", LongParseLong),
        native!(PUBLIC | STATIC; "toString", "(J)Ljava/lang/String;", LongTextOf),
        native!(PUBLIC | STATIC; "compare", "(JJ)I", LongCompare),
        native!(PUBLIC; "intValue", "()I", LongIntValue),
        native!(PUBLIC; "longValue", "()J", LongLongValue),
        native!(PUBLIC; "toString", "()Ljava/lang/String;", LongToString),
        native!(PUBLIC; "equals", "(Ljava/lang/Object;)Z", LongEquals),
        native!(PUBLIC; "hashCode", "()I", LongHashCode),
        native!(PUBLIC; "compareTo", "(Ljava/lang/Long;)I", LongCompareTo),
        method!(PUBLIC; "compareTo", "(Ljava/lang/Object;)I", compares!(LONG, "(Ljava/lang/Long;)I")),
    ],
};

pub(crate) const CHARACTER_CLASS: CoreClass = CoreClass {
    flags: FINAL_CLASS,
    name: CHARACTER,
    superclass: Some(OBJECT),
    interfaces: &[COMPARABLE, SERIALIZABLE],
    fields: &[field!(PRIVATE; "value", "C")],
    methods: &[
        native!(PUBLIC; "<init>", "(C)V", CharacterNew),
        native!(PUBLIC | STATIC; "valueOf", "(C)Ljava/lang/Character;", CharacterValueOf),
        native!(PUBLIC; "charValue", "()C", CharacterCharValue),
        native!(PUBLIC | STATIC; "toString", "(C)Ljava/lang/String;", CharacterTextOf),
        native!(PUBLIC; "toString", "()Ljava/lang/String;", CharacterToString),
        native!(PUBLIC; "equals", "(Ljava/lang/Object;)Z", CharacterEquals),
        native!(PUBLIC; "hashCode", "()I", CharacterHashCode),
        native!(PUBLIC; "compareTo", "(Ljava/lang/Character;)I", CharacterCompareTo),
        method!(PUBLIC; "compareTo", "(Ljava/lang/Object;)I", compares!(CHARACTER, "(Ljava/lang/Character;)I")),
    ],
};

pub(crate) const BOOLEAN_CLASS: CoreClass = CoreClass {
    flags: FINAL_CLASS,
    name: BOOLEAN,
    superclass: Some(OBJECT),
    interfaces: &[COMPARABLE, SERIALIZABLE],
    fields: &[field!(PRIVATE; "value", "Z")],
    methods: &[
        native!(PUBLIC; "<init>", "(Z)V", BooleanNew),
        native!(PUBLIC | STATIC; "valueOf", "(Z)Ljava/lang/Boolean;", BooleanValueOf),
        native!(PUBLIC; "booleanValue", "()Z", BooleanBooleanValue),
        native!(PUBLIC | STATIC; "toString", "(Z)Ljava/lang/String;", BooleanTextOf),
        native!(PUBLIC; "toString", "()Ljava/lang/String;", BooleanToString),
        native!(PUBLIC; "equals", "(Ljava/lang/Object;)Z", BooleanEquals),
        native!(PUBLIC; "hashCode", "()I", BooleanHashCode),
        native!(PUBLIC; "compareTo", "(Ljava/lang/Boolean;)I", BooleanCompareTo),
        method!(PUBLIC; "compareTo", "(Ljava/lang/Object;)I", compares!(BOOLEAN, "(Ljava/lang/Boolean;)I")),
    ],
};
