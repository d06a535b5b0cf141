// The library's classes 0 to 7, 10, 11 and 19 to 21: Object, the interfaces, Class, System, Math, Enum and Objects
// (Java SE 8 API, java.lang, java.io and java.util). `say` is the library's own.
use crate::flags::{
    ABSTRACT_CLASS, FINAL, FINAL_CLASS, PRIVATE, PROTECTED, PUBLIC, PUBLIC_CLASS, PUBLIC_INTERFACE,
    STATIC,
};
use crate::instructions::{
    ACONST_NULL, ALOAD_0, ALOAD_1, ARETURN, ATHROW, DUP, ILOAD_2, IRETURN, RETURN, compares,
    getfield, ifnonnull, invokespecial, invokestatic, invokevirtual, ldc, new, putfield,
};
use crate::names::{
    AUTO_CLOSEABLE, CHAR_SEQUENCE, CLASS, CLONEABLE, COMPARABLE, ENUM, ITERABLE, ITERATOR, MATH,
    OBJECT, OBJECTS, SERIALIZABLE, SYSTEM, UNSUPPORTED_OPERATION_EXCEPTION,
};
use crate::row::{CoreClass, Kind};
use crate::words::{abstract_method, branches, field, method, native, runs};

// Asks for the hash code, and says it in hexadecimal behind the name of the class.
const OBJECT_TO_STRING: Kind = runs!(2, 1; [
    ALOAD_0,
    ALOAD_0,
    invokevirtual!(OBJECT, "hashCode", "()I"),
    invokestatic!(OBJECT, "say", "(Ljava/lang/Object;I)Ljava/lang/String;"),
    ARETURN,
]);

pub(crate) const OBJECT_CLASS: CoreClass = CoreClass {
    flags: PUBLIC_CLASS,
    name: OBJECT,
    superclass: None,
    interfaces: &[],
    fields: &[],
    methods: &[
        method!(PUBLIC; "<init>", "()V", runs!(0, 1; [RETURN])),
        native!(PUBLIC | FINAL; "getClass", "()Ljava/lang/Class;", ObjectGetClass),
        native!(PUBLIC; "hashCode", "()I", ObjectHashCode),
        native!(PUBLIC; "equals", "(Ljava/lang/Object;)Z", ObjectEquals),
        method!(PUBLIC; "toString", "()Ljava/lang/String;", OBJECT_TO_STRING),
        native!(PRIVATE | STATIC; "say", "(Ljava/lang/Object;I)Ljava/lang/String;", ObjectSay),
        native!(PROTECTED; "clone", "()Ljava/lang/Object;", ObjectClone),
    ],
};

pub(crate) const COMPARABLE_INTERFACE: CoreClass = CoreClass {
    flags: PUBLIC_INTERFACE,
    name: COMPARABLE,
    superclass: Some(OBJECT),
    interfaces: &[],
    fields: &[],
    methods: &[abstract_method!(PUBLIC; "compareTo", "(Ljava/lang/Object;)I")],
};

pub(crate) const CHAR_SEQUENCE_INTERFACE: CoreClass = CoreClass {
    flags: PUBLIC_INTERFACE,
    name: CHAR_SEQUENCE,
    superclass: Some(OBJECT),
    interfaces: &[],
    fields: &[],
    methods: &[
        abstract_method!(PUBLIC; "length", "()I"),
        abstract_method!(PUBLIC; "charAt", "(I)C"),
        abstract_method!(PUBLIC; "toString", "()Ljava/lang/String;"),
    ],
};

pub(crate) const CLONEABLE_INTERFACE: CoreClass = CoreClass {
    flags: PUBLIC_INTERFACE,
    name: CLONEABLE,
    superclass: Some(OBJECT),
    interfaces: &[],
    fields: &[],
    methods: &[],
};

pub(crate) const SERIALIZABLE_INTERFACE: CoreClass = CoreClass {
    flags: PUBLIC_INTERFACE,
    name: SERIALIZABLE,
    superclass: Some(OBJECT),
    interfaces: &[],
    fields: &[],
    methods: &[],
};

pub(crate) const AUTO_CLOSEABLE_INTERFACE: CoreClass = CoreClass {
    flags: PUBLIC_INTERFACE,
    name: AUTO_CLOSEABLE,
    superclass: Some(OBJECT),
    interfaces: &[],
    fields: &[],
    methods: &[abstract_method!(PUBLIC; "close", "()V")],
};

pub(crate) const ITERABLE_INTERFACE: CoreClass = CoreClass {
    flags: PUBLIC_INTERFACE,
    name: ITERABLE,
    superclass: Some(OBJECT),
    interfaces: &[],
    fields: &[],
    methods: &[abstract_method!(PUBLIC; "iterator", "()Ljava/util/Iterator;")],
};

// Throws a new UnsupportedOperationException("remove").
const ITERATOR_REMOVE: Kind = runs!(3, 1; [
    new!(UNSUPPORTED_OPERATION_EXCEPTION),
    DUP,
    ldc!("remove"),
    invokespecial!(UNSUPPORTED_OPERATION_EXCEPTION, "<init>", "(Ljava/lang/String;)V"),
    ATHROW,
]);

pub(crate) const ITERATOR_INTERFACE: CoreClass = CoreClass {
    flags: PUBLIC_INTERFACE,
    name: ITERATOR,
    superclass: Some(OBJECT),
    interfaces: &[],
    fields: &[],
    methods: &[
        abstract_method!(PUBLIC; "hasNext", "()Z"),
        abstract_method!(PUBLIC; "next", "()Ljava/lang/Object;"),
        method!(PUBLIC; "remove", "()V", ITERATOR_REMOVE),
    ],
};

// `number` says which class the object stands for.
pub(crate) const CLASS_CLASS: CoreClass = CoreClass {
    flags: FINAL_CLASS,
    name: CLASS,
    superclass: Some(OBJECT),
    interfaces: &[],
    fields: &[field!(PRIVATE; "number", "I")],
    methods: &[
        native!(PUBLIC; "getName", "()Ljava/lang/String;", ClassGetName),
        native!(PUBLIC; "desiredAssertionStatus", "()Z", ClassDesiredAssertionStatus),
    ],
};

pub(crate) const SYSTEM_CLASS: CoreClass = CoreClass {
    flags: FINAL_CLASS,
    name: SYSTEM,
    superclass: Some(OBJECT),
    interfaces: &[],
    fields: &[
        field!(PUBLIC | STATIC | FINAL; "out", "Ljava/io/PrintStream;"),
        field!(PUBLIC | STATIC | FINAL; "in", "Ljava/io/InputStream;"),
    ],
    methods: &[
        native!(PUBLIC | STATIC; "exit", "(I)V", SystemExit),
        native!(PUBLIC | STATIC; "arraycopy", "(Ljava/lang/Object;ILjava/lang/Object;II)V", SystemArraycopy),
        native!(PUBLIC | STATIC; "identityHashCode", "(Ljava/lang/Object;)I", SystemIdentityHashCode),
        native!(PUBLIC | STATIC; "gc", "()V", SystemGc),
    ],
};

pub(crate) const MATH_CLASS: CoreClass = CoreClass {
    flags: FINAL_CLASS,
    name: MATH,
    superclass: Some(OBJECT),
    interfaces: &[],
    fields: &[],
    methods: &[
        native!(PUBLIC | STATIC; "abs", "(I)I", MathAbsInt),
        native!(PUBLIC | STATIC; "abs", "(J)J", MathAbsLong),
        native!(PUBLIC | STATIC; "max", "(II)I", MathMaxInt),
        native!(PUBLIC | STATIC; "max", "(JJ)J", MathMaxLong),
        native!(PUBLIC | STATIC; "min", "(II)I", MathMinInt),
        native!(PUBLIC | STATIC; "min", "(JJ)J", MathMinLong),
        native!(PUBLIC | STATIC; "floorDiv", "(II)I", MathFloorDivInt),
        native!(PUBLIC | STATIC; "floorDiv", "(JJ)J", MathFloorDivLong),
        native!(PUBLIC | STATIC; "floorMod", "(II)I", MathFloorModInt),
        native!(PUBLIC | STATIC; "floorMod", "(JJ)J", MathFloorModLong),
    ],
};

const ENUM_NEW: Kind = runs!(2, 3; [
    ALOAD_0,
    invokespecial!(OBJECT, "<init>", "()V"),
    ALOAD_0,
    ALOAD_1,
    putfield!(ENUM, "name", "Ljava/lang/String;"),
    ALOAD_0,
    ILOAD_2,
    putfield!(ENUM, "ordinal", "I"),
    RETURN,
]);

const ENUM_NAME: Kind = runs!(1, 1; [
    ALOAD_0,
    getfield!(ENUM, "name", "Ljava/lang/String;"),
    ARETURN,
]);

const ENUM_ORDINAL: Kind = runs!(1, 1; [
    ALOAD_0,
    getfield!(ENUM, "ordinal", "I"),
    IRETURN,
]);

pub(crate) const ENUM_CLASS: CoreClass = CoreClass {
    flags: ABSTRACT_CLASS,
    name: ENUM,
    superclass: Some(OBJECT),
    interfaces: &[COMPARABLE, SERIALIZABLE],
    fields: &[
        field!(PRIVATE; "name", "Ljava/lang/String;"),
        field!(PRIVATE; "ordinal", "I"),
    ],
    methods: &[
        method!(PROTECTED; "<init>", "(Ljava/lang/String;I)V", ENUM_NEW),
        method!(PUBLIC | FINAL; "name", "()Ljava/lang/String;", ENUM_NAME),
        method!(PUBLIC | FINAL; "ordinal", "()I", ENUM_ORDINAL),
        method!(PUBLIC; "toString", "()Ljava/lang/String;", ENUM_NAME),
        native!(PUBLIC | FINAL; "equals", "(Ljava/lang/Object;)Z", EnumEquals),
        native!(PUBLIC | FINAL; "hashCode", "()I", EnumHashCode),
        native!(PUBLIC | FINAL; "compareTo", "(Ljava/lang/Enum;)I", EnumCompareTo),
        method!(PUBLIC; "compareTo", "(Ljava/lang/Object;)I", compares!(ENUM, "(Ljava/lang/Enum;)I")),
        native!(PUBLIC | STATIC; "valueOf", "(Ljava/lang/Class;Ljava/lang/String;)Ljava/lang/Enum;", EnumValueOf),
    ],
};

// Gives its argument, and throws NullPointerException for null.
const REQUIRE_NON_NULL: Kind = branches!(1, 1; [
    ALOAD_0,
    ifnonnull!(4),
    ACONST_NULL,
    ATHROW,
    ALOAD_0,
    ARETURN,
], frame(4, [OBJECT]));

pub(crate) const OBJECTS_CLASS: CoreClass = CoreClass {
    flags: FINAL_CLASS,
    name: OBJECTS,
    superclass: Some(OBJECT),
    interfaces: &[],
    fields: &[],
    methods: &[
        method!(PUBLIC | STATIC; "requireNonNull", "(Ljava/lang/Object;)Ljava/lang/Object;", REQUIRE_NON_NULL),
    ],
};
