// What the table of kinds keeps of each.
ghost use Rattle.std.specs.Prelude.{◌≡◌, ◌≤◌, length};
ghost use Rattle.cb_kinds.specs.Basics.{kind_number};
ghost use Rattle.cb_kinds.specs.Kinds.{is_array, type_of_name};
ghost use Rattle.cb_link.specs.InnerKinds.{class_in, dimensions, inner_name, inner_of, letter_of, row_with};
ghost use Rattle.cb_link.specs.Subtypes.{is_above_arrays, is_object};

use crate::resolver::Resolver;
use cb_kinds::{Basic, TextNumbers, Texts, class_name, component_of};

/// `[`, one of which stands for each dimension (JVMS §4.3.2).
const BRACKET: u16 = b'[' as u16;

/// `L`, behind which the name of a class stands.
pub(crate) const CLASS: u16 = b'L' as u16;

/// The names of Object and of the interfaces that arrays have (JLS §10.8).
const OBJECT: &[u16] = &[
    b'j' as u16,
    b'a' as u16,
    b'v' as u16,
    b'a' as u16,
    b'/' as u16,
    b'l' as u16,
    b'a' as u16,
    b'n' as u16,
    b'g' as u16,
    b'/' as u16,
    b'O' as u16,
    b'b' as u16,
    b'j' as u16,
    b'e' as u16,
    b'c' as u16,
    b't' as u16,
];

const CLONEABLE: &[u16] = &[
    b'j' as u16,
    b'a' as u16,
    b'v' as u16,
    b'a' as u16,
    b'/' as u16,
    b'l' as u16,
    b'a' as u16,
    b'n' as u16,
    b'g' as u16,
    b'/' as u16,
    b'C' as u16,
    b'l' as u16,
    b'o' as u16,
    b'n' as u16,
    b'e' as u16,
    b'a' as u16,
    b'b' as u16,
    b'l' as u16,
    b'e' as u16,
];

const SERIALIZABLE: &[u16] = &[
    b'j' as u16,
    b'a' as u16,
    b'v' as u16,
    b'a' as u16,
    b'/' as u16,
    b'i' as u16,
    b'o' as u16,
    b'/' as u16,
    b'S' as u16,
    b'e' as u16,
    b'r' as u16,
    b'i' as u16,
    b'a' as u16,
    b'l' as u16,
    b'i' as u16,
    b'z' as u16,
    b'a' as u16,
    b'b' as u16,
    b'l' as u16,
    b'e' as u16,
];

/// What is kept of a kind.
#[derive(Clone, Copy, Debug)]
pub(crate) struct KindRow {
    /// What the elements are, of an array.
    pub(crate) element: Option<Basic>,
    /// The class of this name.
    pub(crate) class: Option<u32>,
    /// How many dimensions it has, which is none where it is no array.
    pub(crate) dimensions: usize,
    /// The letter behind the brackets, `L` for a class.
    pub(crate) letter: Option<u16>,
    /// The class behind it.
    pub(crate) inner: Inner,
}

/// What is kept of the name of a class within that of a kind.
#[derive(Clone, Copy, Debug)]
pub(crate) struct Inner {
    /// The number of the first kind that has the same name within.
    pub(crate) name: u32,
    /// The class of this name.
    pub(crate) class: Option<u32>,
    /// Whether it is Object.
    pub(crate) is_object: bool,
    /// Whether it is Object, or an interface that arrays have.
    pub(crate) is_above_arrays: bool,
    /// Whether it is that of an interface.
    pub(crate) is_interface: bool,
}

/// The parts of the name of a kind.
#[derive(Clone, Copy)]
pub(crate) struct Parts<'a> {
    dimensions: usize,
    letter: Option<u16>,
    pub(crate) class: &'a [u16],
}

/// The parts of the name of a kind. Takes time in its length.
pub(crate) fn parts_of(name: &[u16]) -> Parts<'_>
    ensures dimensions { result.dimensions ≡ dimensions (type_of_name name.now) }
    ensures letter { result.letter ≡ letter_of (type_of_name name.now) }
    ensures class { result.class.now ≡ inner_name name.now }
{
    if is_array(name) {
        array_parts(name)
    } else {
        Parts {
            dimensions: 0,
            letter: Some(CLASS),
            class: class_name(name),
        }
    }
}

/// The parts of a type.
fn array_parts(text: &[u16]) -> Parts<'_>
    ensures dimensions { result.dimensions ≡ dimensions text.now }
    ensures letter { result.letter ≡ letter_of text.now }
    ensures class { result.class.now ≡ class_in text.now }
{
    let dimensions = brackets(text);
    match text[dimensions..].split_first() {
        Some((letter, rest)) => Parts {
            dimensions,
            letter: Some(*letter),
            class: class_name(rest),
        },
        None => Parts {
            dimensions,
            letter: None,
            class: &[],
        },
    }
}

/// Whether a name is that of an array (JVMS §4.4.1).
fn is_array(name: &[u16]) -> bool
    ensures { result ≡ is_array name.now }
{
    name.first() == Some(&BRACKET)
}

/// How many brackets stand in front.
fn brackets(text: &[u16]) -> usize
    ensures count { result ≡ dimensions text.now }
    ensures within { result ≤ length text.now }
{
    text.iter().take_while(|unit| **unit == BRACKET).count()
}

/// Whether a name is that of Object.
fn is_object(name: &[u16]) -> bool
    ensures { result ≡ is_object name.now }
{
    name == OBJECT
}

/// Whether a name is that of Object, or of an interface that arrays have.
fn is_above_arrays(name: &[u16]) -> bool
    ensures { result ≡ is_above_arrays name.now }
{
    name == OBJECT || name == CLONEABLE || name == SERIALIZABLE
}

/// The number of a name, or how many there are where it isn't there.
fn number_or_count(names: &TextNumbers, name: &[u16]) -> u32
    ensures { result ≡ kind_number names.now name.now }
{
    match names.number(name) {
        Some(number) => number,
        None => names.len() as u32,
    }
}

/// What is kept of the name of a class within that of a kind.
fn inner_of(resolver: &Resolver, names: &TextNumbers, name: &[u16]) -> Inner
    ensures { result ≡ inner_of resolver.now names.now name.now }
{
    let class = resolver.class_number(name);
    Inner {
        name: number_or_count(names, name),
        class,
        is_object: is_object(name),
        is_above_arrays: is_above_arrays(name),
        is_interface: resolver.is_interface(class),
    }
}

/// What is kept of a kind, by its name.
pub(crate) fn row_of(
    resolver: &Resolver,
    kinds: &Texts,
    names: &TextNumbers,
    name: &[u16],
) -> KindRow
    ensures { result ≡ row_with resolver.now kinds.now names.now name.now }
{
    let parts = parts_of(name);
    KindRow {
        element: component_of(kinds, name),
        class: resolver.class_number(name),
        dimensions: parts.dimensions,
        letter: parts.letter,
        inner: inner_of(resolver, names, parts.class),
    }
}
