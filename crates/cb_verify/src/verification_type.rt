// Verification types.
ghost use Rattle.std.specs.Prelude.{◌≡◌, ◌≤◌};
ghost use Rattle.cb_verify.specs.Frames.{is_same};
ghost use Rattle.cb_verify.specs.InnerWords.{is_top};
ghost use Rattle.cb_verify.specs.Types.{category, goes_to, is_initialised, is_of, kind_goes_to, number_type, sort_of_basic, type_of, words};

use cb_kinds::Basic;
use cb_link::Program;
use cb_shapes::{Category, Sort};

/// What is known of a value in a local variable or on the operand stack (JVMS §4.10.1.2).
#[derive(Clone, Copy, Debug, Drop, Eq, PartialEq)]
pub enum VerificationType {
    /// Nothing: it may not be used. The second local variable of a long is one.
    Top,
    Int,
    Long,
    /// The type of `null`.
    Null,
    /// The object of a constructor that has not yet called another.
    This,
    /// An object of a kind, or null.
    Object(u32),
    /// What the `new` at a place of the code has made, before a constructor was called.
    New(u32),
}

/// The sort of a value by what it is in a descriptor.
pub(crate) fn sort_of_basic(basic: Basic) -> Sort
    ensures { result ≡ sort_of_basic basic }
{
    match basic {
        Basic::Reference(_) => Sort::Reference,
        Basic::Long => Sort::Long,
        _ => Sort::Int,
    }
}

impl VerificationType {
    /// The type of a value by what it is in a descriptor: an int for what is narrower too.
    pub fn of_basic(basic: Basic) -> Self
        ensures { result ≡ type_of basic }
    {
        match basic {
            Basic::Reference(kind) => VerificationType::Object(kind),
            Basic::Long => VerificationType::Long,
            _ => VerificationType::Int,
        }
    }

    /// The type of a number of a sort.
    pub(crate) fn of_number(sort: Sort) -> Self
        ensures { result ≡ number_type sort }
    {
        match sort {
            Sort::Long => VerificationType::Long,
            _ => VerificationType::Int,
        }
    }

    /// Whether a value of the type is of a sort. References are null and objects, also those that aren't initialised.
    pub fn is_of(self, sort: Sort) -> bool
        ensures { result ≡ is_of sort self }
    {
        match sort {
            Sort::Int => matches!(self, VerificationType::Int),
            Sort::Long => matches!(self, VerificationType::Long),
            Sort::Reference => matches!(
                self,
                VerificationType::Null
                    | VerificationType::This
                    | VerificationType::Object(_)
                    | VerificationType::New(_)
            ),
        }
    }

    /// Whether it is null or an object that is initialised.
    pub(crate) fn is_initialised(self) -> bool
        ensures { result ≡ is_initialised self }
    {
        matches!(self, VerificationType::Null | VerificationType::Object(_))
    }

    /// The category of its values, none where nothing is known of them (JVMS table 2.11.1-B).
    pub(crate) fn category(self) -> Option<Category>
        ensures { result ≡ category self }
    {
        match self {
            VerificationType::Top => None,
            VerificationType::Long => Some(Category::Two),
            _ => Some(Category::One),
        }
    }

    /// How many words of the operand stack, or local variables, a value takes.
    pub(crate) fn words(self) -> u32
        ensures words { result ≡ words self }
        ensures few { result ≤ 2 }
    {
        match self {
            VerificationType::Long => 2,
            _ => 1,
        }
    }

    /// Whether it is the type of the same object, which isn't initialised.
    pub(crate) fn is_same(self, other: Self) -> bool
        ensures { result ≡ is_same self other }
    {
        match (self, other) {
            (VerificationType::This, VerificationType::This) => true,
            (VerificationType::New(one), VerificationType::New(own)) => one == own,
            _ => false,
        }
    }

    /// Whether nothing is known of the value.
    pub(crate) fn is_top(self) -> bool
        ensures { result ≡ is_top self }
    {
        matches!(self, VerificationType::Top)
    }

    /// Whether it is assignable to another (JVMS §4.10.1.2).
    pub fn goes_to(self, program: &Program, other: Self) -> bool
        ensures { result ≡ goes_to program.now self other }
    {
        match (self, other) {
            (_, VerificationType::Top)
            | (VerificationType::Int, VerificationType::Int)
            | (VerificationType::Long, VerificationType::Long)
            | (VerificationType::Null, VerificationType::Null | VerificationType::Object(_))
            | (VerificationType::This, VerificationType::This) => true,
            (VerificationType::Object(kind), VerificationType::Object(wanted)) => kind_goes_to(
                program, kind, wanted,
            ),
            (VerificationType::New(place), VerificationType::New(own)) => place == own,
            _ => false,
        }
    }
}

/// Whether a kind is assignable to another, where both are there.
pub(crate) fn kind_goes_to(program: &Program, kind: u32, wanted: u32) -> bool
    ensures { result ≡ kind_goes_to program.now kind wanted }
{
    kind < program.kind_count() && wanted < program.kind_count() && program.assignable(kind, wanted)
}
