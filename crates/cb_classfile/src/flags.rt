// The access flags of classes, fields and methods (JVMS §4.1, §4.5, §4.6).
ghost use Rattle.std.specs.Prelude.{⊤, [], ◌∷◌, codes};

use bitflags::{Flag, Flags, bitflag_items};

/// The access flags of a class or interface (JVMS table 4.1-A). All 16 bits of the file are kept.
#[derive(Clone, Copy, Debug, PartialEq, Eq)]
pub struct ClassFlags(pub u16);

bitflag_items! {
    impl ClassFlags: u16 {
        const PUBLIC = 0x0001;
        const FINAL = 0x0010;
        const SUPER = 0x0020;
        const INTERFACE = 0x0200;
        const ABSTRACT = 0x0400;
        const SYNTHETIC = 0x1000;
        const ANNOTATION = 0x2000;
        const ENUM = 0x4000;
    }
}

impl Flags for ClassFlags {
    type Bits = u16;

    ghost exact = { ⊤ };

    ghost table = { (codes "PUBLIC", 0x0001) ∷ (codes "FINAL", 0x0010) ∷ (codes "SUPER", 0x0020)
        ∷ (codes "INTERFACE", 0x0200) ∷ (codes "ABSTRACT", 0x0400) ∷ (codes "SYNTHETIC", 0x1000)
        ∷ (codes "ANNOTATION", 0x2000) ∷ (codes "ENUM", 0x4000) ∷ [] };

    ghost set_of = { λ flags. flags.0 };

    fn flags<'a>() -> &'a [Flag<ClassFlags>] {
        ClassFlags::FLAGS
    }

    fn bits(&self) -> u16 {
        self.0
    }

    fn from_bits_retain(bits: u16) -> ClassFlags {
        ClassFlags(bits)
    }
}

/// The access flags of a field (JVMS table 4.5-A). All 16 bits of the file are kept.
#[derive(Clone, Copy, Debug, PartialEq, Eq)]
pub struct FieldFlags(pub u16);

bitflag_items! {
    impl FieldFlags: u16 {
        const PUBLIC = 0x0001;
        const PRIVATE = 0x0002;
        const PROTECTED = 0x0004;
        const STATIC = 0x0008;
        const FINAL = 0x0010;
        const VOLATILE = 0x0040;
        const TRANSIENT = 0x0080;
        const SYNTHETIC = 0x1000;
        const ENUM = 0x4000;
    }
}

impl Flags for FieldFlags {
    type Bits = u16;

    ghost exact = { ⊤ };

    ghost table = { (codes "PUBLIC", 0x0001) ∷ (codes "PRIVATE", 0x0002) ∷ (codes "PROTECTED", 0x0004)
        ∷ (codes "STATIC", 0x0008) ∷ (codes "FINAL", 0x0010) ∷ (codes "VOLATILE", 0x0040)
        ∷ (codes "TRANSIENT", 0x0080) ∷ (codes "SYNTHETIC", 0x1000) ∷ (codes "ENUM", 0x4000) ∷ [] };

    ghost set_of = { λ flags. flags.0 };

    fn flags<'a>() -> &'a [Flag<FieldFlags>] {
        FieldFlags::FLAGS
    }

    fn bits(&self) -> u16 {
        self.0
    }

    fn from_bits_retain(bits: u16) -> FieldFlags {
        FieldFlags(bits)
    }
}

/// The access flags of a method (JVMS table 4.6-A). All 16 bits of the file are kept.
#[derive(Clone, Copy, Debug, PartialEq, Eq)]
pub struct MethodFlags(pub u16);

bitflag_items! {
    impl MethodFlags: u16 {
        const PUBLIC = 0x0001;
        const PRIVATE = 0x0002;
        const PROTECTED = 0x0004;
        const STATIC = 0x0008;
        const FINAL = 0x0010;
        const SYNCHRONIZED = 0x0020;
        const BRIDGE = 0x0040;
        const VARARGS = 0x0080;
        const NATIVE = 0x0100;
        const ABSTRACT = 0x0400;
        const STRICT = 0x0800;
        const SYNTHETIC = 0x1000;
    }
}

impl Flags for MethodFlags {
    type Bits = u16;

    ghost exact = { ⊤ };

    ghost table = { (codes "PUBLIC", 0x0001) ∷ (codes "PRIVATE", 0x0002) ∷ (codes "PROTECTED", 0x0004)
        ∷ (codes "STATIC", 0x0008) ∷ (codes "FINAL", 0x0010) ∷ (codes "SYNCHRONIZED", 0x0020)
        ∷ (codes "BRIDGE", 0x0040) ∷ (codes "VARARGS", 0x0080) ∷ (codes "NATIVE", 0x0100)
        ∷ (codes "ABSTRACT", 0x0400) ∷ (codes "STRICT", 0x0800) ∷ (codes "SYNTHETIC", 0x1000) ∷ [] };

    ghost set_of = { λ flags. flags.0 };

    fn flags<'a>() -> &'a [Flag<MethodFlags>] {
        MethodFlags::FLAGS
    }

    fn bits(&self) -> u16 {
        self.0
    }

    fn from_bits_retain(bits: u16) -> MethodFlags {
        MethodFlags(bits)
    }
}
