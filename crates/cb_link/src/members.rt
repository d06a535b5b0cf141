// The methods of a linked program.
ghost use Rattle.std.specs.Prelude.{◌≡◌, ◌<◌, ℕ, length, option_map, slice_get, IfSome, Some};
ghost use Rattle.cb_kinds.specs.declared.basic.Basic.{Basic as AnyBasic};
ghost use Rattle.cb_link.specs.Having.{HasMethod, IsBelow, parameters_at};
ghost use Rattle.cb_link.specs.Numbers.{methods_of};

use crate::{LinkedMethod, Program};
use cb_classfile::Method;
use cb_kinds::Basic;

impl Program {
    /// How many methods the program has.
    pub fn method_count(&self) -> u32
        ensures { result ≡ length self.now.methods }
    {
        self.base.methods.len() as u32
    }

    /// The number of the method with which the program begins.
    pub fn main_method(&self) -> u32
        ensures begins { result ≡ self.now.main_method }
        ensures within { result < length self.now.methods }
    {
        self.base.main_method
    }

    /// The number of the class that declares a method.
    pub fn class_of(&self, method: u32) -> u32
        requires { method < length self.now.methods }
        ensures declares { option_map (λ linked. linked.class) (slice_get self.now.methods method) ≡ Some result }
        ensures within { result < length self.now.classes }
    {
        self.linked(method).class
    }

    /// A method's place among those of the class that declares it.
    pub fn place_of(&self, method: u32) -> u32
        requires { method < length self.now.methods }
        ensures { option_map (λ linked. linked.place) (slice_get self.now.methods method) ≡ Some result }
    {
        self.linked(method).place
    }

    /// The record of a method.
    pub fn method(&self, method: u32) -> &Method
        requires { method < length self.now.methods }
        ensures { option_map (λ numbered. numbered.member) (slice_get (methods_of self.now.classes) method) ≡ Some result.now }
    {
        let linked = self.linked(method);
        let class = self.class(linked.class as usize);
        class.methods.get(linked.place as usize)
    }

    /// How many parameters a method has. A receiver is no parameter.
    pub fn parameter_count(&self, method: u32) -> usize
        requires { method < length self.now.methods }
        ensures { result ≡ length (parameters_at self.now method) }
    {
        self.linked(method).parameters.len()
    }

    /// What the values of a method's parameter are. Parameters count from 0.
    pub fn parameter(&self, method: u32, parameter: usize) -> Basic
        requires method { method < length self.now.methods }
        requires parameter { parameter < length (parameters_at self.now method) }
        ensures basic { slice_get (parameters_at self.now method) parameter ≡ Some result }
        ensures within { IsBelow (length self.now.kinds) result }
    {
        *self.linked(method).parameters.get(parameter)
    }

    /// What a method's result is, if it has one.
    pub fn result(&self, method: u32) -> Option<Basic>
        requires { method < length self.now.methods }
        ensures basic { option_map (λ linked. linked.result) (slice_get self.now.methods method) ≡ Some result }
        ensures within { IfSome result (IsBelow (length self.now.kinds)) }
    {
        self.linked(method).result
    }

    /// What the program has of a method.
    fn linked(&self, method: u32) -> &LinkedMethod
        requires { method < length self.now.methods }
        ensures found { slice_get self.now.methods method ≡ Some result.now }
        ensures placed { HasMethod self.now method result.now }
        ensures parameters { (place : ℕ) (basic : AnyBasic) → slice_get result.now.parameters place ≡ Some basic → IsBelow (length self.now.kinds) basic }
        ensures given { IfSome result.now.result (IsBelow (length self.now.kinds)) }
    {
        self.base.linked(method as usize)
    }
}
