// The library's classes 22 to 49: Throwable and what is below it (Java SE 8 API, java.lang, java.io and java.util). Each
// has the same four constructors, also where Java SE 8 has fewer. `say` and the fields are the library's own.
use crate::flags::{FINAL, PRIVATE, PUBLIC, PUBLIC_CLASS, STATIC};
use crate::instructions::{
    ACONST_NULL, ALOAD_0, ALOAD_1, ALOAD_2, ARETURN, RETURN, checkcast, getfield, ifeq, ifnull,
    instanceof, invokespecial, invokestatic, invokevirtual, putfield,
};
use crate::names::{
    ABSTRACT_METHOD_ERROR, ARITHMETIC_EXCEPTION, ARRAY_INDEX_OUT_OF_BOUNDS_EXCEPTION,
    ARRAY_STORE_EXCEPTION, ASSERTION_ERROR, CLASS_CAST_EXCEPTION, CLONE_NOT_SUPPORTED_EXCEPTION,
    ERROR, EXCEPTION, EXCEPTION_IN_INITIALIZER_ERROR, ILLEGAL_ARGUMENT_EXCEPTION,
    ILLEGAL_STATE_EXCEPTION, INCOMPATIBLE_CLASS_CHANGE_ERROR, INDEX_OUT_OF_BOUNDS_EXCEPTION,
    IO_EXCEPTION, LINKAGE_ERROR, NEGATIVE_ARRAY_SIZE_EXCEPTION, NO_CLASS_DEF_FOUND_ERROR,
    NO_SUCH_ELEMENT_EXCEPTION, NO_SUCH_FIELD_ERROR, NULL_POINTER_EXCEPTION,
    NUMBER_FORMAT_EXCEPTION, OBJECT, RUNTIME_EXCEPTION, SERIALIZABLE, STACK_OVERFLOW_ERROR, STRING,
    STRING_INDEX_OUT_OF_BOUNDS_EXCEPTION, THROWABLE, UNSUPPORTED_OPERATION_EXCEPTION,
    VIRTUAL_MACHINE_ERROR,
};
use crate::row::{CoreClass, Kind};
use crate::words::{branches, field, method, native, runs};

const THROWABLE_NEW: Kind = runs!(1, 1; [
    ALOAD_0,
    invokespecial!(OBJECT, "<init>", "()V"),
    RETURN,
]);

const THROWABLE_OF_MESSAGE: Kind = runs!(2, 2; [
    ALOAD_0,
    invokespecial!(OBJECT, "<init>", "()V"),
    ALOAD_0,
    ALOAD_1,
    putfield!(THROWABLE, "message", "Ljava/lang/String;"),
    RETURN,
]);

const THROWABLE_OF_BOTH: Kind = runs!(2, 3; [
    ALOAD_0,
    invokespecial!(OBJECT, "<init>", "()V"),
    ALOAD_0,
    ALOAD_1,
    putfield!(THROWABLE, "message", "Ljava/lang/String;"),
    ALOAD_0,
    ALOAD_2,
    putfield!(THROWABLE, "cause", "Ljava/lang/Throwable;"),
    RETURN,
]);

// The message is null for null, and else what the cause's `toString` gives.
const THROWABLE_OF_CAUSE: Kind = branches!(2, 2; [
    ALOAD_0,
    invokespecial!(OBJECT, "<init>", "()V"),
    ALOAD_0,
    ALOAD_1,
    putfield!(THROWABLE, "cause", "Ljava/lang/Throwable;"),
    ALOAD_1,
    ifnull!(11),
    ALOAD_0,
    ALOAD_1,
    invokevirtual!(THROWABLE, "toString", "()Ljava/lang/String;"),
    putfield!(THROWABLE, "message", "Ljava/lang/String;"),
    RETURN,
], frame(11, [THROWABLE, THROWABLE]));

const THROWABLE_MESSAGE: Kind = runs!(1, 1; [
    ALOAD_0,
    getfield!(THROWABLE, "message", "Ljava/lang/String;"),
    ARETURN,
]);

const THROWABLE_CAUSE: Kind = runs!(1, 1; [
    ALOAD_0,
    getfield!(THROWABLE, "cause", "Ljava/lang/Throwable;"),
    ARETURN,
]);

// Says what `getMessage` gives behind the name of the class.
const THROWABLE_TO_STRING: Kind = runs!(2, 1; [
    ALOAD_0,
    ALOAD_0,
    invokevirtual!(THROWABLE, "getMessage", "()Ljava/lang/String;"),
    invokestatic!(THROWABLE, "say", "(Ljava/lang/Throwable;Ljava/lang/String;)Ljava/lang/String;"),
    ARETURN,
]);

const THROWABLE_CLASS: CoreClass = CoreClass {
    flags: PUBLIC_CLASS,
    name: THROWABLE,
    superclass: Some(OBJECT),
    interfaces: &[SERIALIZABLE],
    fields: &[
        field!(PRIVATE; "message", "Ljava/lang/String;"),
        field!(PRIVATE; "cause", "Ljava/lang/Throwable;"),
        field!(PRIVATE; "suppressed", "[Ljava/lang/Throwable;"),
    ],
    methods: &[
        method!(PUBLIC; "<init>", "()V", THROWABLE_NEW),
        method!(PUBLIC; "<init>", "(Ljava/lang/String;)V", THROWABLE_OF_MESSAGE),
        method!(PUBLIC; "<init>", "(Ljava/lang/String;Ljava/lang/Throwable;)V", THROWABLE_OF_BOTH),
        method!(PUBLIC; "<init>", "(Ljava/lang/Throwable;)V", THROWABLE_OF_CAUSE),
        method!(PUBLIC; "getMessage", "()Ljava/lang/String;", THROWABLE_MESSAGE),
        method!(PUBLIC; "getCause", "()Ljava/lang/Throwable;", THROWABLE_CAUSE),
        method!(PUBLIC; "toString", "()Ljava/lang/String;", THROWABLE_TO_STRING),
        native!(PRIVATE | STATIC; "say", "(Ljava/lang/Throwable;Ljava/lang/String;)Ljava/lang/String;", ThrowableSay),
        native!(PUBLIC | FINAL; "addSuppressed", "(Ljava/lang/Throwable;)V", ThrowableAddSuppressed),
        native!(PUBLIC | FINAL; "getSuppressed", "()[Ljava/lang/Throwable;", ThrowableGetSuppressed),
    ],
};

// The bodies of the constructors below Throwable: each hands what it is given to the superclass's own of the same kind.
macro_rules! of_nothing {
    ($superclass:expr) => {
        runs!(1, 1; [
            ALOAD_0,
            invokespecial!($superclass, "<init>", "()V"),
            RETURN,
        ])
    };
}

macro_rules! of_message {
    ($superclass:expr) => {
        runs!(2, 2; [
            ALOAD_0,
            ALOAD_1,
            invokespecial!($superclass, "<init>", "(Ljava/lang/String;)V"),
            RETURN,
        ])
    };
}

macro_rules! of_both {
    ($superclass:expr) => {
        runs!(3, 3; [
            ALOAD_0,
            ALOAD_1,
            ALOAD_2,
            invokespecial!($superclass, "<init>", "(Ljava/lang/String;Ljava/lang/Throwable;)V"),
            RETURN,
        ])
    };
}

macro_rules! of_cause {
    ($superclass:expr) => {
        runs!(2, 2; [
            ALOAD_0,
            ALOAD_1,
            invokespecial!($superclass, "<init>", "(Ljava/lang/Throwable;)V"),
            RETURN,
        ])
    };
}

// An error of an initialiser has no message where it has a cause alone.
macro_rules! of_cause_without_message {
    ($superclass:expr) => {
        runs!(3, 2; [
            ALOAD_0,
            ACONST_NULL,
            ALOAD_1,
            invokespecial!($superclass, "<init>", "(Ljava/lang/String;Ljava/lang/Throwable;)V"),
            RETURN,
        ])
    };
}

// The message of an assertion's error is what `String.valueOf` gives of an object, and the object is the cause where it
// is a Throwable.
const OF_OBJECT: Kind = branches!(2, 2; [
    ALOAD_0,
    ALOAD_1,
    invokestatic!(STRING, "valueOf", "(Ljava/lang/Object;)Ljava/lang/String;"),
    invokespecial!(ERROR, "<init>", "(Ljava/lang/String;)V"),
    ALOAD_1,
    instanceof!(THROWABLE),
    ifeq!(11),
    ALOAD_0,
    ALOAD_1,
    checkcast!(THROWABLE),
    putfield!(THROWABLE, "cause", "Ljava/lang/Throwable;"),
    RETURN,
], frame(11, [ASSERTION_ERROR, OBJECT]));

// A class of the four constructors, by the body of the one of a cause, and what it has beside them.
macro_rules! with_constructors {
    ($of_a_cause:expr, [$($more:expr),*], $superclass:expr, $name:expr) => {
        CoreClass {
            flags: PUBLIC_CLASS,
            name: $name,
            superclass: Some($superclass),
            interfaces: &[],
            fields: &[],
            methods: &[
                method!(PUBLIC; "<init>", "()V", of_nothing!($superclass)),
                method!(PUBLIC; "<init>", "(Ljava/lang/String;)V", of_message!($superclass)),
                method!(PUBLIC; "<init>", "(Ljava/lang/String;Ljava/lang/Throwable;)V", of_both!($superclass)),
                method!(PUBLIC; "<init>", "(Ljava/lang/Throwable;)V", $of_a_cause),
                $($more),*
            ],
        }
    };
}

macro_rules! below {
    ($superclass:expr, $name:expr) => {
        with_constructors!(of_cause!($superclass), [], $superclass, $name)
    };
}

const EXCEPTION_IN_INITIALIZER_ERROR_CLASS: CoreClass = with_constructors!(
    of_cause_without_message!(LINKAGE_ERROR),
    [],
    LINKAGE_ERROR,
    EXCEPTION_IN_INITIALIZER_ERROR
);

const ASSERTION_ERROR_CLASS: CoreClass = with_constructors!(
    of_cause!(ERROR),
    [method!(PUBLIC; "<init>", "(Ljava/lang/Object;)V", OF_OBJECT)],
    ERROR,
    ASSERTION_ERROR
);

// The classes from 22 on, in parts.
pub(crate) const TOP_THROWABLES: &[CoreClass] = &[
    THROWABLE_CLASS,
    below!(THROWABLE, EXCEPTION),
    below!(EXCEPTION, RUNTIME_EXCEPTION),
    below!(THROWABLE, ERROR),
];

pub(crate) const RUNTIME_EXCEPTIONS: &[CoreClass] = &[
    below!(RUNTIME_EXCEPTION, ARITHMETIC_EXCEPTION),
    below!(RUNTIME_EXCEPTION, ARRAY_STORE_EXCEPTION),
    below!(RUNTIME_EXCEPTION, CLASS_CAST_EXCEPTION),
    below!(RUNTIME_EXCEPTION, ILLEGAL_ARGUMENT_EXCEPTION),
    below!(ILLEGAL_ARGUMENT_EXCEPTION, NUMBER_FORMAT_EXCEPTION),
    below!(RUNTIME_EXCEPTION, ILLEGAL_STATE_EXCEPTION),
    below!(RUNTIME_EXCEPTION, INDEX_OUT_OF_BOUNDS_EXCEPTION),
    below!(
        INDEX_OUT_OF_BOUNDS_EXCEPTION,
        ARRAY_INDEX_OUT_OF_BOUNDS_EXCEPTION
    ),
    below!(
        INDEX_OUT_OF_BOUNDS_EXCEPTION,
        STRING_INDEX_OUT_OF_BOUNDS_EXCEPTION
    ),
    below!(RUNTIME_EXCEPTION, NEGATIVE_ARRAY_SIZE_EXCEPTION),
    below!(RUNTIME_EXCEPTION, NULL_POINTER_EXCEPTION),
    below!(RUNTIME_EXCEPTION, UNSUPPORTED_OPERATION_EXCEPTION),
];

pub(crate) const OTHER_EXCEPTIONS: &[CoreClass] = &[
    below!(EXCEPTION, CLONE_NOT_SUPPORTED_EXCEPTION),
    below!(EXCEPTION, IO_EXCEPTION),
    below!(RUNTIME_EXCEPTION, NO_SUCH_ELEMENT_EXCEPTION),
];

pub(crate) const ERRORS: &[CoreClass] = &[
    below!(ERROR, LINKAGE_ERROR),
    EXCEPTION_IN_INITIALIZER_ERROR_CLASS,
    below!(LINKAGE_ERROR, NO_CLASS_DEF_FOUND_ERROR),
    below!(LINKAGE_ERROR, INCOMPATIBLE_CLASS_CHANGE_ERROR),
    below!(INCOMPATIBLE_CLASS_CHANGE_ERROR, ABSTRACT_METHOD_ERROR),
    below!(INCOMPATIBLE_CLASS_CHANGE_ERROR, NO_SUCH_FIELD_ERROR),
    below!(ERROR, VIRTUAL_MACHINE_ERROR),
    below!(VIRTUAL_MACHINE_ERROR, STACK_OVERFLOW_ERROR),
    ASSERTION_ERROR_CLASS,
];
