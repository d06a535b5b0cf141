// What values are.
ghost use Rattle.std.specs.Prelude.{◌≡◌, ◌≢◌, ◌∷◌, ℕ, List};
ghost use Rattle.cb_names.specs.Signs.{bracket, letter_class};
ghost use Rattle.cb_kinds.specs.Basics.{basic_of, component_of, is_reference, kind_number};

use crate::Texts;
use crate::units::{BOOLEAN, BRACKET, BYTE, CHAR, CLASS, DOUBLE, LONG, SHORT, class_name};

/// What a value is: a number of a base type, or a reference to an object of a kind (JVMS §2.2).
#[derive(Clone, Copy, Debug, PartialEq, Eq)]
pub enum Basic {
    Boolean,
    Byte,
    Char,
    Short,
    Int,
    Long,
    /// A reference to an object of the kind of this number, or null.
    Reference(u32),
}

impl Basic {
    /// Whether it is a reference.
    pub fn is_reference(self) -> bool
        ensures { result ≡ is_reference self }
    {
        matches!(self, Basic::Reference(_))
    }
}

/// The number of a kind, or the number of kinds where it isn't there. Takes expected time in the name's length.
pub fn kind_number(kinds: &Texts, name: &[u16]) -> u32
    ensures { result ≡ kind_number kinds.now name.now }
{
    match kinds.number(name) {
        Some(number) => number,
        None => kinds.len() as u32,
    }
}

/// What the values of a type are. Takes expected time in its length.
pub fn basic_of(kinds: &Texts, text: &[u16]) -> Basic
    ensures { result ≡ basic_of kinds.now text.now }
{
    let Some((unit, rest)) = text.split_first() else {
        return Basic::Int;
    };
    if *unit == BRACKET {
        Basic::Reference(kind_number(kinds, text))
    } else if *unit == CLASS {
        Basic::Reference(kind_number(kinds, class_name(rest)))
    } else {
        basic_of_letter(*unit)
    }
}

/// What the values of a base type are, by its letter (JVMS §4.3.2, table 4.3-A).
fn basic_of_letter(unit: u16) -> Basic
    requires { (unit ≢ bracket) × (unit ≢ letter_class) }
    ensures { (kinds : List (List ℕ)) (rest : List ℕ) → result ≡ basic_of kinds (unit ∷ rest) }
{
    if unit == BOOLEAN {
        Basic::Boolean
    } else if unit == BYTE {
        Basic::Byte
    } else if unit == CHAR {
        Basic::Char
    } else if unit == SHORT {
        Basic::Short
    } else if unit == LONG || unit == DOUBLE {
        Basic::Long
    } else {
        Basic::Int
    }
}

/// What the components of a kind are, if it is an array's. Takes expected time in the name's length.
pub fn component_of(kinds: &Texts, name: &[u16]) -> Option<Basic>
    ensures { result ≡ component_of kinds.now name.now }
{
    let (unit, components) = name.split_first()?;
    if *unit == BRACKET {
        Some(basic_of(kinds, components))
    } else {
        None
    }
}
