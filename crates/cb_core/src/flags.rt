// Access flags of classes, fields and methods (JVMS §4.1, §4.5, §4.6). Flags of a class or member are joined by `|`.
pub(crate) const PUBLIC: u16 = 0x0001;

pub(crate) const PRIVATE: u16 = 0x0002;

pub(crate) const PROTECTED: u16 = 0x0004;

pub(crate) const STATIC: u16 = 0x0008;

pub(crate) const FINAL: u16 = 0x0010;

// What each class but an interface has since Java 1.1.
pub(crate) const SUPER: u16 = 0x0020;

pub(crate) const NATIVE: u16 = 0x0100;

pub(crate) const INTERFACE: u16 = 0x0200;

pub(crate) const ABSTRACT: u16 = 0x0400;

// Those of a public class, of one that may have no subclass, of one that has no objects of its own, and of an interface.
pub(crate) const PUBLIC_CLASS: u16 = PUBLIC | SUPER;

pub(crate) const FINAL_CLASS: u16 = PUBLIC | FINAL | SUPER;

pub(crate) const ABSTRACT_CLASS: u16 = PUBLIC | SUPER | ABSTRACT;

pub(crate) const PUBLIC_INTERFACE: u16 = PUBLIC | INTERFACE | ABSTRACT;
