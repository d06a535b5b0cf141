// The units that have a meaning in descriptors (JVMS §4.3.2, table 4.3-A), and where one stands.
ghost use Rattle.std.specs.Prelude.{◌≡◌, ◌==◌, not};
ghost use Rattle.std.specs.List.{prefix_len};
ghost use Rattle.cb_kinds.specs.Descriptors.{is_base};
ghost use Rattle.cb_kinds.specs.Kinds.{ends_name, is_array, name_in};

/// `)`, behind which a method's result stands (JVMS §4.3.3).
pub(crate) const RIGHT_PARENTHESIS: u16 = b')' as u16;

/// `;`, with which the name of a class ends.
pub(crate) const SEMICOLON: u16 = b';' as u16;

/// `[`, one of which stands for each dimension.
pub(crate) const BRACKET: u16 = b'[' as u16;

pub(crate) const BYTE: u16 = b'B' as u16;

pub(crate) const CHAR: u16 = b'C' as u16;

pub(crate) const DOUBLE: u16 = b'D' as u16;

pub(crate) const FLOAT: u16 = b'F' as u16;

pub(crate) const INT: u16 = b'I' as u16;

pub(crate) const LONG: u16 = b'J' as u16;

/// `L`, behind which the name of a class stands.
pub(crate) const CLASS: u16 = b'L' as u16;

pub(crate) const SHORT: u16 = b'S' as u16;

pub(crate) const BOOLEAN: u16 = b'Z' as u16;

/// Whether a unit is the letter of a base type.
pub(crate) fn is_base(unit: u16) -> bool
    ensures { result ≡ is_base unit }
{
    unit == BYTE
        || unit == CHAR
        || unit == DOUBLE
        || unit == FLOAT
        || unit == INT
        || unit == LONG
        || unit == SHORT
        || unit == BOOLEAN
}

/// Whether a name is that of an array (JVMS §4.4.1).
pub(crate) fn is_array(name: &[u16]) -> bool
    ensures { result ≡ is_array name.now }
{
    name.first() == Some(&BRACKET)
}

/// Whether a unit stands in no name of a class, and so ends one.
fn ends_name(unit: u16) -> bool
    ensures { result ≡ ends_name unit }
{
    unit == SEMICOLON || unit == BRACKET
}

/// The name of a class that stands in front, up to the first unit that ends it (JVMS §4.2.1).
pub fn class_name(text: &[u16]) -> &[u16]
    ensures { result.now ≡ name_in text.now }
{
    &text[..name_len(text)]
}

/// How many units stand in a name in front.
fn name_len(text: &[u16]) -> usize
    ensures { result ≡ prefix_len (λ unit. not (ends_name unit)) text.now }
{
    text.iter().take_while(|unit| !ends_name(**unit)).count()
}

/// How many units stand before the first of these.
pub(crate) fn place_of(text: &[u16], unit: u16) -> usize
    ensures { result ≡ prefix_len (λ other. not (other == unit)) text.now }
{
    text.iter().take_while(|other| **other != unit).count()
}
