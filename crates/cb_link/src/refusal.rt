// Why a program can't be linked.
ghost use Rattle.std.specs.Prelude.{◌≡◌, Some};
ghost use Rattle.cb_link.specs.Quantities.{quantity_text};
ghost use Rattle.cb_link.specs.declared.refusal.Refusal.TheVariants.{OutOfMemory as MemoryRefusal};

use cb_classfile::Feature;
use cb_text::Units;
use std::alloc::AllocError;
use std::fmt;

/// Why a program can't be linked. Classes are named by their internal names (JVMS §4.2.1).
#[derive(Debug, Drop)]
pub enum Refusal {
    /// The class is needed and has no file.
    MissingClass {
        name: Units,
    },
    /// There is more of something than its limit. It is counted no further than to one more.
    TooLarge {
        what: Quantity,
        count: u64,
        limit: u64,
    },
    /// The file of the class is no class file, or that of a class of another name.
    Malformed {
        class: Units,
    },
    /// The file of the class has another major version than 50, 51 and 52.
    BadVersion {
        class: Units,
        major: u16,
    },
    /// The class has an item that this machine leaves out.
    Unsupported {
        class: Units,
        item: Feature,
    },
    /// The class is above itself, its superclass is an interface or final, one of its superinterfaces is a class, or it
    /// overrides a final method.
    BadHierarchy {
        class: Units,
    },
    /// An instruction of the class names a member that can't be had: the member's name and descriptor, or `new` where it
    /// makes an object of an abstract class.
    MissingMember {
        class: Units,
        member: Units,
    },
    /// Neither the class nor a superclass has a static method `main` of the descriptor `([Ljava/lang/String;)V`.
    NoMain {
        class: Units,
    },
    /// The folder failed.
    FolderFault,
    /// No memory was to be had.
    OutOfMemory,
}

/// What there may be too much of.
#[derive(Clone, Copy, Debug, PartialEq, Eq)]
pub enum Quantity {
    /// The bytes of a class file.
    ClassFileBytes,
    /// The classes of a program.
    Classes,
    /// The methods of a program.
    Methods,
    /// The sites of a program: its instructions that make objects, and the machine's own.
    Sites,
    /// The nodes of the analysis of where objects may be held.
    Nodes,
    /// The partitions of a program's sites.
    Partitions,
    /// The edges between partitions.
    Edges,
    /// The bytes of an assembly text.
    AssemblyBytes,
}

impl fmt::Display for Quantity {
    ghost output = { λ quantity. Some (quantity_text quantity) };

    fn fmt<W: fmt::Write>(&self, f: &mut fmt::Formatter<W>) -> fmt::Result {
        f.write_str(match self {
            Quantity::ClassFileBytes => "class file bytes",
            Quantity::Classes => "classes",
            Quantity::Methods => "methods",
            Quantity::Sites => "sites",
            Quantity::Nodes => "nodes",
            Quantity::Partitions => "partitions",
            Quantity::Edges => "edges",
            Quantity::AssemblyBytes => "assembly bytes",
        })
    }
}

impl From<AllocError> for Refusal {
    ghost from_gives = { λ _ refusal. refusal ≡ MemoryRefusal };

    fn from(_: AllocError) -> Self {
        Refusal::OutOfMemory
    }
}
