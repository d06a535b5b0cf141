// Why a command is refused.
ghost use Rattle.std.specs.Prelude.{Some};
ghost use Rattle.cb_runner.specs.Messages.{reason_of, refusal_text};

use cb_classfile::Feature;
use cb_link::Quantity;
use std::error::Error;
use std::fmt;

/// Why a command is refused. A class is named as it is printed: for `list` by the path of its file.
#[derive(Debug, Drop, PartialEq, Eq)]
pub enum Refusal {
    /// The class is needed and has no file.
    MissingClass {
        name: String,
    },
    /// The file of the class is no class file, or that of a class of another name.
    Malformed {
        class: String,
    },
    /// The file of the class has another major version than 50, 51 and 52.
    BadVersion {
        class: String,
        major: u16,
    },
    /// The class has an item that this machine leaves out.
    Unsupported {
        class: String,
        item: Feature,
    },
    /// The class is above itself, its superclass is an interface or final, one of its superinterfaces is a class, or it
    /// overrides a final method.
    BadHierarchy {
        class: String,
    },
    /// An instruction of the class names a member that can't be had.
    MissingMember {
        class: String,
        member: String,
    },
    /// Neither the class nor a superclass has a static method `main`.
    NoMain {
        class: String,
    },
    /// A method of the class, by name and descriptor, isn't typed (JVMS §4.10.1), and this is the least place of it that fails.
    Unverified {
        class: String,
        method: String,
        pc: u32,
    },
    /// There is more of something than its limit. It is counted no further than to one more.
    TooLarge {
        what: Quantity,
        count: u64,
        limit: u64,
    },
    /// This line of an assembly text, counted from 1, is the first that is outside the format.
    BadLine {
        line: u32,
    },
}

impl fmt::Display for Refusal {
    ghost output = { λ refusal. Some (refusal_text (reason_of refusal)) };

    fn fmt<W: fmt::Write>(&self, f: &mut fmt::Formatter<W>) -> fmt::Result {
        match self {
            Refusal::MissingClass { name } => write!(f, "E1 missing class {name}"),
            Refusal::Malformed { class } => write!(f, "E2 malformed class {class}"),
            Refusal::BadVersion { class, major } => write!(
                f,
                "E3 version {major} in class {class}"
            ),
            Refusal::Unsupported { class, item } => {
                write!(f, "E4 unsupported {item} in class {class}")
            }
            Refusal::BadHierarchy { class } => write!(f, "E5 bad hierarchy at class {class}"),
            Refusal::MissingMember { class, member } => {
                write!(f, "E6 missing member {member} in class {class}")
            }
            Refusal::NoMain { class } => write!(f, "E9 no main in class {class}"),
            Refusal::Unverified { class, method, pc } => {
                write!(f, "E7 not verified {class} {method} {pc}")
            }
            Refusal::TooLarge { what, count, limit } => {
                write!(f, "E8 too large {what} {count} over {limit}")
            }
            Refusal::BadLine { line } => write!(f, "bad line {line}"),
        }
    }
}

impl Error for Refusal {}
