// Names (JVMS §4.2).
ghost use Rattle.std.specs.Prelude.{◌≡◌, ◌↔◌, ◌⊎◌, IsTrue, false};
ghost use Rattle.cb_names.specs.Names.{IsUnqualifiedName, IsMethodName, IsClassName};
ghost use Rattle.cb_names.specs.Signs.{greater, less, name_clinit, name_init};

use crate::class_name::begun_behind;
use crate::signs::{BRACKET, CLINIT, GREATER, INIT, LESS, SEMICOLON, SLASH};

/// Which kinds of names a text is.
#[derive(Clone, Copy, Debug, PartialEq, Eq)]
pub struct NameKinds {
    /// An unqualified name (JVMS §4.2.2).
    pub unqualified: bool,
    /// A method's name (JVMS §4.2.2).
    pub method: bool,
    /// The name of a class or interface in internal form (JVMS §4.2.1).
    pub class: bool,
}

/// What a text is that is no name.
const NO_NAME: NameKinds = NameKinds {
    unqualified: false,
    method: false,
    class: false,
};

/// Which kinds of names a text is. Walks it at most once, and not at all where a `;` ends it, as the descriptor of a
/// class.
pub fn name_kinds(text: &[u16]) -> NameKinds
    ensures unqualified { IsTrue result.unqualified ↔ IsUnqualifiedName text.now }
    ensures method { IsTrue result.method ↔ IsMethodName text.now }
    ensures class { IsTrue result.class ↔ IsClassName text.now }
{
    if let [.., last] = text
        && *last == SEMICOLON
    {
        return NO_NAME;
    }
    let mut begun = false;
    let mut parted = false;
    let mut angled = false;
    for unit in text {
        // most units are greater than all that have a meaning in names
        if *unit > BRACKET {
            begun = true;
        } else {
            match begun_behind(begun, *unit) {
                Some(after) => begun = after,
                None => return NO_NAME,
            }
            parted |= *unit == SLASH;
            angled |= is_angle(*unit);
        }
    }
    NameKinds {
        unqualified: begun & !parted,
        method: begun & !parted & angles_may_stand(text, angled),
        class: begun,
    }
}

/// Whether a unit is `<` or `>`.
#[inline]
fn is_angle(unit: u16) -> bool
    ensures { IsTrue result ↔ ((unit ≡ less) ⊎ (unit ≡ greater)) }
{
    matches!(unit, LESS | GREATER)
}

/// Whether a method may be named so where it has `<` or `>` or not: it has none, or it is `<init>` or `<clinit>`.
fn angles_may_stand(text: &[u16], angled: bool) -> bool
    ensures { IsTrue result ↔ ((angled ≡ false) ⊎ (text.now ≡ name_init) ⊎ (text.now ≡ name_clinit)) }
{
    !angled || text == INIT || text == CLINIT
}

/// Whether a text is an unqualified name, as that of a field: at least one unit, and none of `.`, `;`, `[` and `/`
/// (JVMS §4.2.2). Takes time in its length.
pub fn is_unqualified_name(text: &[u16]) -> bool
    ensures { IsTrue result ↔ IsUnqualifiedName text.now }
{
    name_kinds(text).unqualified
}

/// Whether a text is a method's name: an unqualified name without `<` and `>`, or `<init>` or `<clinit>` (JVMS
/// §4.2.2). Takes time in its length.
pub fn is_method_name(text: &[u16]) -> bool
    ensures { IsTrue result ↔ IsMethodName text.now }
{
    name_kinds(text).method
}

/// Whether a text is the name of a class or interface in internal form: unqualified names with `/` between them
/// (JVMS §4.2.1). Takes time in its length.
pub fn is_class_name(text: &[u16]) -> bool
    ensures { IsTrue result ↔ IsClassName text.now }
{
    name_kinds(text).class
}
