// What this machine leaves out of class files.
ghost use Rattle.std.specs.Prelude.{Some};
ghost use Rattle.cb_classfile.specs.Messages.{feature_text};

use std::error::Error;
use std::fmt;

/// An item that this machine's profile leaves out: floating point, method handles and `invokedynamic`, reference
/// objects, threads, native methods, finalizers and subroutines. It is printed by its words.
#[derive(Clone, Copy, Debug, PartialEq, Eq)]
pub enum Feature {
    /// A constant, descriptor, frame type or instruction of type float.
    Float,
    /// The same of type double.
    Double,
    /// A MethodHandle constant (JVMS §4.4.8).
    MethodHandle,
    /// A MethodType constant (JVMS §4.4.9).
    MethodType,
    /// An InvokeDynamic constant or the instruction `invokedynamic` (JVMS §4.4.10).
    InvokeDynamic,
    /// A class under `java/lang/ref/`.
    LangRef,
    /// A synchronized method.
    Synchronized,
    /// A native method.
    Native,
    /// A method `finalize()V`.
    Finalize,
    /// `monitorenter` or `monitorexit`.
    Monitor,
    /// `jsr`, `jsr_w` or `ret`.
    Jsr,
}

impl fmt::Display for Feature {
    ghost output = { λ feature. Some (feature_text feature) };

    fn fmt<W: fmt::Write>(&self, f: &mut fmt::Formatter<W>) -> fmt::Result {
        f.write_str(match self {
            Feature::Float => "float",
            Feature::Double => "double",
            Feature::MethodHandle => "method handle",
            Feature::MethodType => "method type",
            Feature::InvokeDynamic => "invokedynamic",
            Feature::LangRef => "java/lang/ref",
            Feature::Synchronized => "synchronized",
            Feature::Native => "native",
            Feature::Finalize => "finalize",
            Feature::Monitor => "monitor",
            Feature::Jsr => "jsr",
        })
    }
}

impl Error for Feature {}
