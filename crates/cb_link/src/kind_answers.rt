// What a running machine asks of kinds and classes.
ghost use Rattle.std.specs.Prelude.{◌≡◌, ◌<◌, length, option_map, slice_get, IfSome, Some};
ghost use Rattle.cb_io.specs.Utf8.{utf8};
ghost use Rattle.cb_kinds.specs.Basics.{component_of, kind_number};
ghost use Rattle.cb_link.specs.Calls.{class_of_kind};
ghost use Rattle.cb_link.specs.InnerKinds.{assignable_by, by_letters, compared, instance_by, is_class};
ghost use Rattle.cb_link.specs.Having.{IsBelow};
ghost use Rattle.cb_link.specs.Numbers.{name_of, or_none};
ghost use Rattle.cb_link.specs.Subtypes.{assignable, instance};

use crate::Program;
use crate::kind_row::{CLASS, Inner, KindRow};
use cb_kinds::Basic;
use cb_plain::Name;

impl Program {
    /// The number of the main class.
    pub fn main_class(&self) -> u32
        ensures main { result ≡ self.now.main_class }
        ensures within { result < length self.now.classes }
    {
        self.base.main_class
    }

    /// The name of a class, as text.
    pub fn class_name(&self, class: u32) -> &Name
        requires { class < length self.now.classes }
        ensures { option_map (λ file. utf8 (name_of file)) (slice_get self.now.classes class) ≡ Some result.now }
    {
        self.tables.members.kinds.names.get(class as usize)
    }

    /// The number of the kind of a class's objects.
    pub fn kind_of_class(&self, class: u32) -> u32
        requires { class < length self.now.classes }
        ensures kind { option_map (λ file. kind_number self.now.kinds (name_of file)) (slice_get self.now.classes class) ≡ Some result }
        ensures within { result < length self.now.kinds }
    {
        *self.tables.members.kinds.of_classes.get(class as usize)
    }

    /// The class of a kind. An array has none, nor has a name whose class wasn't loaded.
    pub fn class_of_kind(&self, kind: u32) -> Option<u32>
        requires { kind < length self.now.kinds }
        ensures class { result ≡ class_of_kind self.now kind }
        ensures within { IfSome result (λ class. class < length self.now.classes) }
    {
        self.tables.members.kinds.rows.get(kind as usize).class
    }

    /// What the elements of an array are. A kind that is no array has none.
    pub fn element(&self, kind: u32) -> Option<Basic>
        requires { kind < length self.now.kinds }
        ensures element { result ≡ component_of self.now.kinds (or_none (slice_get self.now.kinds kind)) }
        ensures within { IfSome result (IsBelow (length self.now.kinds)) }
    {
        self.tables.members.kinds.rows.get(kind as usize).element
    }

    /// Whether the objects of a kind are instances of another (JVMS §6.5 instanceof).
    pub fn instance(&self, kind: u32, of: u32) -> bool
        requires kind { kind < length self.now.kinds }
        requires of { of < length self.now.kinds }
        ensures { result ≡ instance self.now kind of }
    {
        let one = self.tables.members.kinds.rows.get(kind as usize);
        let other = self.tables.members.kinds.rows.get(of as usize);
        is_below(one, other, self.is_instance(&one.inner, &other.inner))
    }

    /// Whether a reference to an object of a kind may be assigned where another is wanted (JVMS §4.10.1.2).
    pub fn assignable(&self, from: u32, to: u32) -> bool
        requires from { from < length self.now.kinds }
        requires to { to < length self.now.kinds }
        ensures { result ≡ assignable self.now from to }
    {
        let one = self.tables.members.kinds.rows.get(from as usize);
        let other = self.tables.members.kinds.rows.get(to as usize);
        is_below(one, other, self.is_assignable(&one.inner, &other.inner))
    }

    /// Whether the objects of a class are instances of another.
    fn is_instance(&self, one: &Inner, other: &Inner) -> bool
        requires one { IfSome one.now.class (λ class. class < length self.now.classes) }
        requires other { IfSome other.now.class (λ class. class < length self.now.classes) }
        ensures { result ≡ instance_by self.now.classes one.now other.now }
    {
        one.name == other.name
            || other.is_object
            || self.base.resolver.is_below(one.class, other.class)
    }

    /// Whether a reference to an object of a class may be assigned where another is wanted.
    fn is_assignable(&self, one: &Inner, other: &Inner) -> bool
        requires one { IfSome one.now.class (λ class. class < length self.now.classes) }
        requires other { IfSome other.now.class (λ class. class < length self.now.classes) }
        ensures { result ≡ assignable_by self.now.classes one.now other.now }
    {
        other.is_interface || self.is_instance(one, other)
    }
}

/// Whether a kind is below another, by what is so of the classes within.
fn is_below(one: &KindRow, other: &KindRow, among: bool) -> bool
    ensures { result ≡ compared one.now other.now among }
{
    if one.dimensions == other.dimensions {
        are_below(one.letter, other.letter, among)
    } else {
        other.dimensions < one.dimensions && is_class(other.letter) && other.inner.is_above_arrays
    }
}

/// The same of letters.
fn are_below(one: Option<u16>, other: Option<u16>, among: bool) -> bool
    ensures { result ≡ by_letters one other among }
{
    match (one, other) {
        (Some(CLASS), Some(CLASS)) => among,
        (Some(one), Some(other)) => one == other,
        _ => false,
    }
}

/// Whether a letter is that of a class.
fn is_class(letter: Option<u16>) -> bool
    ensures { result ≡ is_class letter }
{
    letter == Some(CLASS)
}
