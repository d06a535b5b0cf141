// The names of the library's classes, in the order of their numbers from 0 to 49.
pub(crate) const OBJECT: &str = "java/lang/Object";

pub(crate) const COMPARABLE: &str = "java/lang/Comparable";

pub(crate) const CHAR_SEQUENCE: &str = "java/lang/CharSequence";

pub(crate) const CLONEABLE: &str = "java/lang/Cloneable";

pub(crate) const SERIALIZABLE: &str = "java/io/Serializable";

pub(crate) const AUTO_CLOSEABLE: &str = "java/lang/AutoCloseable";

pub(crate) const ITERABLE: &str = "java/lang/Iterable";

pub(crate) const ITERATOR: &str = "java/util/Iterator";

pub(crate) const STRING: &str = "java/lang/String";

pub(crate) const STRING_BUILDER: &str = "java/lang/StringBuilder";

pub(crate) const CLASS: &str = "java/lang/Class";

pub(crate) const SYSTEM: &str = "java/lang/System";

pub(crate) const PRINT_STREAM: &str = "java/io/PrintStream";

pub(crate) const INPUT_STREAM: &str = "java/io/InputStream";

pub(crate) const NUMBER: &str = "java/lang/Number";

pub(crate) const INTEGER: &str = "java/lang/Integer";

pub(crate) const LONG: &str = "java/lang/Long";

pub(crate) const CHARACTER: &str = "java/lang/Character";

pub(crate) const BOOLEAN: &str = "java/lang/Boolean";

pub(crate) const MATH: &str = "java/lang/Math";

pub(crate) const ENUM: &str = "java/lang/Enum";

pub(crate) const OBJECTS: &str = "java/util/Objects";

pub(crate) const THROWABLE: &str = "java/lang/Throwable";

pub(crate) const EXCEPTION: &str = "java/lang/Exception";

pub(crate) const RUNTIME_EXCEPTION: &str = "java/lang/RuntimeException";

pub(crate) const ERROR: &str = "java/lang/Error";

pub(crate) const ARITHMETIC_EXCEPTION: &str = "java/lang/ArithmeticException";

pub(crate) const ARRAY_STORE_EXCEPTION: &str = "java/lang/ArrayStoreException";

pub(crate) const CLASS_CAST_EXCEPTION: &str = "java/lang/ClassCastException";

pub(crate) const ILLEGAL_ARGUMENT_EXCEPTION: &str = "java/lang/IllegalArgumentException";

pub(crate) const NUMBER_FORMAT_EXCEPTION: &str = "java/lang/NumberFormatException";

pub(crate) const ILLEGAL_STATE_EXCEPTION: &str = "java/lang/IllegalStateException";

pub(crate) const INDEX_OUT_OF_BOUNDS_EXCEPTION: &str = "java/lang/IndexOutOfBoundsException";

pub(crate) const ARRAY_INDEX_OUT_OF_BOUNDS_EXCEPTION: &str =
    "java/lang/ArrayIndexOutOfBoundsException";

pub(crate) const STRING_INDEX_OUT_OF_BOUNDS_EXCEPTION: &str =
    "java/lang/StringIndexOutOfBoundsException";

pub(crate) const NEGATIVE_ARRAY_SIZE_EXCEPTION: &str = "java/lang/NegativeArraySizeException";

pub(crate) const NULL_POINTER_EXCEPTION: &str = "java/lang/NullPointerException";

pub(crate) const UNSUPPORTED_OPERATION_EXCEPTION: &str = "java/lang/UnsupportedOperationException";

pub(crate) const CLONE_NOT_SUPPORTED_EXCEPTION: &str = "java/lang/CloneNotSupportedException";

pub(crate) const IO_EXCEPTION: &str = "java/io/IOException";

pub(crate) const NO_SUCH_ELEMENT_EXCEPTION: &str = "java/util/NoSuchElementException";

pub(crate) const LINKAGE_ERROR: &str = "java/lang/LinkageError";

pub(crate) const EXCEPTION_IN_INITIALIZER_ERROR: &str = "java/lang/ExceptionInInitializerError";

pub(crate) const NO_CLASS_DEF_FOUND_ERROR: &str = "java/lang/NoClassDefFoundError";

pub(crate) const INCOMPATIBLE_CLASS_CHANGE_ERROR: &str = "java/lang/IncompatibleClassChangeError";

pub(crate) const ABSTRACT_METHOD_ERROR: &str = "java/lang/AbstractMethodError";

pub(crate) const NO_SUCH_FIELD_ERROR: &str = "java/lang/NoSuchFieldError";

pub(crate) const VIRTUAL_MACHINE_ERROR: &str = "java/lang/VirtualMachineError";

pub(crate) const STACK_OVERFLOW_ERROR: &str = "java/lang/StackOverflowError";

pub(crate) const ASSERTION_ERROR: &str = "java/lang/AssertionError";
