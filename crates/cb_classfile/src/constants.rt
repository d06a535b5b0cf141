// The constant pool, as the tables behind it name its entries (JVMS §4.4).
ghost use Rattle.std.specs.Prelude.{◌≡◌, ◌↔◌, ℕ, ◌+◌, length, MatchOption, IfSome, IsTrue, IsSomeAnd, Some, None, option_and_then, option_copied};
ghost use Rattle.cb_text.specs.Pool.{constant_at};
ghost use Rattle.cb_names.specs.Names.{IsClassName};
ghost use Rattle.cb_names.specs.Descriptors.{IsMethodDescriptor, floating_in};
ghost use Rattle.cb_classfile.specs.Pool.{text_at, class_at, HasText, HasClass, HasMember, IsAnyMethodDescriptor, NamesField, NamesMethod, NamesClassMethod, GivesNothing, IsNamed, AreNamed};
ghost use Rattle.cb_classfile.specs.Texts.{AreFacts, Describe};

use crate::ascii::has_text;
use crate::texts::{TextFacts, facts_of_text};
use cb_names::{Floating, floating_in};
use cb_text::{Constant, Pool};
use std::marker::Model;

/// `)V`, with which the descriptor of a method ends that gives nothing (JVMS §4.3.3).
const GIVES_NOTHING: &[u16] = &[b')' as u16, b'V' as u16];

/// The constants of a class file, as its tables name them by their indices, with what their texts are. What a text is
/// stands in a table, or is found where it is asked for: a question takes constant time where the table has the text, and
/// else time in its length. No question takes memory.
#[derive(Debug, Drop)]
pub struct Constants<'a> {
    pool: &'a Pool,
    facts: &'a [Option<TextFacts>],
}

impl<'a> Model for Constants<'a> {
    ghost use Rattle.std.specs.Prelude.{List};
    ghost use Rattle.cb_text.specs.declared.constant.Constant.{Constant as AnyConstant};
    ghost use Rattle.cb_classfile.specs.Texts.{Describe};

    ghost Value = { List AnyConstant };

    ghost view = { λ constants. constants.pool.now };

    ghost invariant = { λ constants. Describe constants.pool.now constants.facts.now };
}

impl<'a> Constants<'a> {
    /// The constants of a pool, whose texts are looked at where it is asked what they are.
    pub fn new(pool: &'a Pool) -> Constants<'a>
        ensures { result ≡ pool.now }
    {
        Constants { pool, facts: &[] }
    }

    /// The constants of a pool, of whose texts these are the facts, as `facts_of` gives them.
    pub fn described(pool: &'a Pool, facts: &'a [Option<TextFacts>]) -> Constants<'a>
        requires { Describe pool.now facts.now }
        ensures { result ≡ pool.now }
    {
        Constants { pool, facts }
    }

    /// One more than the greatest index.
    pub(crate) fn len(&self) -> u16
        ensures { result ≡ length self.now + 1 }
    {
        self.pool.len()
    }

    /// The constant at an index.
    pub(crate) fn constant(&self, index: u16) -> Option<&'a Constant>
        ensures { option_copied result ≡ constant_at self.now index }
    {
        self.pool.get(index)
    }

    /// The text at an index.
    pub(crate) fn text(&self, index: u16) -> Option<&'a [u16]>
        ensures { MatchOption result (text_at self.now index ≡ None) (λ text. text_at self.now index ≡ Some text.now) }
    {
        self.pool.text(index)
    }

    /// The name of the class at an index.
    pub(crate) fn class(&self, index: u16) -> Option<&'a [u16]>
        ensures { MatchOption result (class_at self.now index ≡ None) (λ name. class_at self.now index ≡ Some name.now) }
    {
        self.pool.class(index)
    }

    /// Whether the indices name the name and the descriptor of a field (JVMS §4.4.6).
    pub fn names_field(&self, name: u16, descriptor: u16) -> bool
        ensures { IsTrue result ↔ NamesField self.now name descriptor }
    {
        self.facts(name).is_some_and(|facts| facts.unqualified_name)
            && self
                .facts(descriptor)
                .is_some_and(|facts| facts.field_descriptor)
    }

    /// Whether the indices name the name and the descriptor of a method (JVMS §4.4.6).
    pub fn names_method(&self, name: u16, descriptor: u16) -> bool
        ensures { IsTrue result ↔ NamesMethod self.now name descriptor }
    {
        self.facts(name).is_some_and(|facts| facts.method_name)
            && self.is_method_descriptor(descriptor)
    }

    /// Whether the index names a class that is no array (JVMS §4.4.1).
    pub fn is_class(&self, index: u16) -> bool
        ensures { IsTrue result ↔ HasClass self.now index IsClassName }
    {
        match self.pool.get(index) {
            Some(Constant::Class(name)) => self.facts(*name).is_some_and(|facts| facts.class_name),
            _ => false,
        }
    }

    /// How many words the parameters of the method descriptor at an index take (JVMS §4.3.3).
    pub fn parameter_words(&self, descriptor: u16) -> Option<u8>
        ensures words { MatchOption result ((words : ℕ) → HasText self.now descriptor (λ text. IsMethodDescriptor text words) → ⊥)
            (λ words. HasText self.now descriptor (λ text. IsMethodDescriptor text words)) }
        ensures exact { (words : ℕ) → HasText self.now descriptor (λ text. IsMethodDescriptor text words) → result ≡ Some words }
    {
        self.facts(descriptor)?.parameter_words
    }

    /// The first floating-point type in the descriptor at an index.
    pub fn floating(&self, index: u16) -> Option<Floating>
        ensures { result ≡ option_and_then floating_in (text_at self.now index) }
    {
        let text = self.text(index)?;
        match self.facts(index)?.floating {
            Some(floating) => floating,
            None => floating_in(text),
        }
    }

    /// Whether the names and descriptors of each constant follow their grammars (JVMS §4.4). Takes time in the number
    /// of constants.
    pub fn are_named(&self) -> bool
        ensures { IsTrue result ↔ AreNamed self.now }
    {
        for index in 1..self.len() {
            if !self.is_named_at(index) {
                return false;
            }
        }
        true
    }

    /// Whether the names and descriptors of the constant at an index, if there is one, follow their grammars.
    fn is_named_at(&self, index: u16) -> bool
        ensures { IsTrue result ↔ IfSome (constant_at self.now index) (IsNamed self.now) }
    {
        match self.constant(index) {
            Some(constant) => self.is_named(constant),
            None => true,
        }
    }

    /// Whether the names and descriptors of a constant follow their grammars.
    fn is_named(&self, constant: &Constant) -> bool
        ensures { IsTrue result ↔ IsNamed self.now constant.now }
    {
        match constant {
            Constant::Class(name) => self
                .facts(*name)
                .is_some_and(|facts| facts.class_name || facts.array_descriptor),
            Constant::NameAndType(name, descriptor) => {
                self.names_field(*name, *descriptor) || self.names_method(*name, *descriptor)
            }
            Constant::Fieldref(_, member) => self.is_field_member(*member),
            Constant::Methodref(_, member) => self.is_class_method_member(*member),
            Constant::InterfaceMethodref(_, member) | Constant::InvokeDynamic(_, member) =>
                self.is_method_member(*member),
            Constant::MethodType(descriptor) => self.is_method_descriptor(*descriptor),
            _ => true,
        }
    }

    /// Whether the index names the name and type of a field.
    fn is_field_member(&self, member: u16) -> bool
        ensures { IsTrue result ↔ HasMember self.now member (NamesField self.now) }
    {
        match self.constant(member) {
            Some(Constant::NameAndType(name, descriptor)) => self.names_field(*name, *descriptor),
            _ => false,
        }
    }

    /// Whether the index names the name and type of a method.
    fn is_method_member(&self, member: u16) -> bool
        ensures { IsTrue result ↔ HasMember self.now member (NamesMethod self.now) }
    {
        match self.constant(member) {
            Some(Constant::NameAndType(name, descriptor)) => self.names_method(*name, *descriptor),
            _ => false,
        }
    }

    /// Whether the index names the name and type of a class's method.
    fn is_class_method_member(&self, member: u16) -> bool
        ensures { IsTrue result ↔ HasMember self.now member (NamesClassMethod self.now) }
    {
        match self.constant(member) {
            Some(Constant::NameAndType(name, descriptor)) => {
                self.names_class_method(*name, *descriptor)
            }
            _ => false,
        }
    }

    /// Whether the indices name a method, and neither a class initialiser nor a constructor that gives something
    /// (JVMS §4.4.2).
    fn names_class_method(&self, name: u16, descriptor: u16) -> bool
        ensures { IsTrue result ↔ NamesClassMethod self.now name descriptor }
    {
        self.names_method(name, descriptor)
            && !has_text(self, name, b"<clinit>")
            && (!has_text(self, name, b"<init>") || self.gives_nothing(descriptor))
    }

    /// Whether the index names the descriptor of a method that gives nothing.
    fn gives_nothing(&self, descriptor: u16) -> bool
        ensures { IsTrue result ↔ HasText self.now descriptor GivesNothing }
    {
        match self.text(descriptor) {
            Some(text) => text.ends_with(GIVES_NOTHING),
            None => false,
        }
    }

    /// Whether the index names a method descriptor.
    fn is_method_descriptor(&self, index: u16) -> bool
        ensures { IsTrue result ↔ HasText self.now index IsAnyMethodDescriptor }
    {
        self.parameter_words(index).is_some()
    }

    /// What the text at an index is.
    fn facts(&self, index: u16) -> Option<TextFacts>
        ensures { MatchOption result (text_at self.now index ≡ None)
            (λ facts. IsSomeAnd (text_at self.now index) (λ text. AreFacts text facts)) }
    {
        let text = self.text(index)?;
        match self.facts.get(usize::from(index) - 1) {
            Some(Some(facts)) => Some(*facts),
            _ => Some(facts_of_text(text)),
        }
    }
}
