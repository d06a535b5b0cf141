// Types of fields and methods (JVMS §4.3).
ghost use Rattle.std.specs.Prelude.{◌≡◌, ◌≢◌, ◌↔◌, ◌+◌, ◌≤◌, List, ℕ, IfSome, IsNone, IsTrue, MatchOption};
ghost use Rattle.cb_names.specs.Descriptors.{floating_in};
ghost use Rattle.cb_names.specs.Types.{IsElement, IsReference, IsType, Named, element_of, element_text, method_type_of, parameters_words, type_of, type_text, type_words};

use crate::base::BaseType;
use crate::floating::Floating;

/// A type that is no array's.
#[derive(Clone, Copy, Debug)]
pub enum ElementType<'a> {
    /// A base type.
    Base(BaseType),
    /// A class or interface, by its name in internal form.
    Class(&'a [u16]),
}

/// The type of a field, a parameter or a result (JVMS §4.3.2).
#[derive(Clone, Copy, Debug)]
pub struct FieldType<'a> {
    /// How many dimensions an array has, or 0 where the type is no array's.
    pub dimensions: u8,
    /// What stands in the array behind all its dimensions, or the type itself.
    pub element: ElementType<'a>,
}

/// The type of a method (JVMS §4.3.3).
#[derive(Debug, Drop)]
pub struct MethodType<'a> {
    /// The types of its parameters in order, without `this`.
    pub parameters: Vec<FieldType<'a>>,
    /// The type of what it gives, or `None` for `void`.
    pub result: Option<FieldType<'a>>,
}

impl ElementType<'_> {
    /// The floating-point type that it is, or `None` where it is none.
    fn floating(self) -> Option<Floating>
        requires { IsElement (element_of self) }
        ensures { result ≡ floating_in (element_text (element_of self.entry)) }
    {
        match self {
            ElementType::Base(BaseType::Float) => Some(Floating::Float),
            ElementType::Base(BaseType::Double) => Some(Floating::Double),
            ElementType::Base(_) => None,
            ElementType::Class(_) => None,
        }
    }
}

impl<'a> FieldType<'a> {
    /// How many words a value of the type takes: two for a `long` or `double`, and else one (JVMS §4.3.3).
    pub fn words(self) -> u8
        ensures { result ≡ type_words (type_of self.entry) }
    {
        match self.element {
            ElementType::Base(BaseType::Long | BaseType::Double) if self.dimensions == 0 => 2,
            _ => 1,
        }
    }

    /// The type of an array's components, or `None` where the type is no array's.
    pub fn component(self) -> Option<FieldType<'a>>
        ensures none { IsNone result ↔ (self.entry.dimensions ≡ 0) }
        ensures some { IfSome result (λ part. (part.dimensions + 1 ≡ self.entry.dimensions)
            × (part.element ≡ self.entry.element)) }
    {
        let dimensions = self.dimensions.checked_sub(1)?;
        Some(FieldType {
            dimensions,
            element: self.element,
        })
    }

    /// The name of the class that the type or an array's element is, or `None` where that is a base type.
    pub fn class(self) -> Option<&'a [u16]>
        ensures { MatchOption result ((name : List ℕ) → element_of self.entry.element ≢ Named name)
            (λ name. element_of self.entry.element ≡ Named name.now) }
    {
        match self.element {
            ElementType::Base(_) => None,
            ElementType::Class(name) => Some(name),
        }
    }

    /// The floating-point type that the type or an array's element is, or `None` where that is none. The name of a class
    /// has to be one.
    pub fn floating(self) -> Option<Floating>
        requires { IsType (type_of self) }
        ensures { result ≡ floating_in (type_text (type_of self.entry)) }
    {
        self.element.floating()
    }

    /// Whether values of the type are references: it is a class's or an array's (JVMS §2.4).
    pub fn is_reference(self) -> bool
        ensures { IsTrue result ↔ IsReference (type_of self.entry) }
    {
        self.dimensions > 0 || matches!(self.element, ElementType::Class(_))
    }
}

impl MethodType<'_> {
    /// How many words the parameters take, without `this` (JVMS §4.3.3). Takes time in their number.
    pub fn words(&self) -> u8
        requires { parameters_words (method_type_of self.now).parameters ≤ 255 }
        ensures { result ≡ parameters_words (method_type_of self.now).parameters }
    {
        self.parameters
            .iter()
            .map(|parameter| parameter.words())
            .sum()
    }
}
