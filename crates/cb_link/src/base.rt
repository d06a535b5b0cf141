// A program without its tables.
use crate::resolver::Resolver;
use crate::{LinkedField, LinkedFields, LinkedMethod, LinkedMethods, Sites};
use cb_kinds::Texts;
use cb_plain::Numbers;
use std::marker::Model;

/// What linking finds and numbers of a program, without the tables that are made of it. Contracts see it as a record.
#[derive(Drop)]
pub(crate) struct Base {
    pub(crate) resolver: Resolver,
    pub(crate) kinds: Texts,
    pub(crate) methods: LinkedMethods,
    pub(crate) fields: LinkedFields,
    pub(crate) fixed: Numbers,
    pub(crate) sites: Sites,
    pub(crate) constants: Texts,
    pub(crate) main_class: u32,
    pub(crate) main_method: u32,
}

impl Model for Base {
    ghost use Rattle.cb_link.specs.Having.{IsWhole};
    ghost use Rattle.cb_link.specs.Program.{Linked};

    ghost Value = { Linked };

    ghost view = { λ base. record {
      classes = base.resolver;
      kinds = base.kinds;
      methods = base.methods;
      fields = base.fields;
      fixed = base.fixed;
      sites = base.sites;
      constants = base.constants;
      main_class = base.main_class;
      main_method = base.main_method;
    } };

    ghost invariant = { λ base. IsWhole (record {
      classes = base.resolver;
      kinds = base.kinds;
      methods = base.methods;
      fields = base.fields;
      fixed = base.fixed;
      sites = base.sites;
      constants = base.constants;
      main_class = base.main_class;
      main_method = base.main_method;
    }) };
}

impl Base {
    ghost use Rattle.std.specs.Prelude.{◌≡◌, ◌<◌, ℕ, length, slice_get, IfSome, Some};
    ghost use Rattle.cb_kinds.specs.declared.basic.Basic.{Basic as AnyBasic};
    ghost use Rattle.cb_link.specs.Having.{HasMethod, IsBelow};
    ghost use Rattle.cb_link.specs.InnerPlaces.{HasField};

    /// What the program has of a method.
    pub(crate) fn linked(&self, method: usize) -> &LinkedMethod
        requires { method < length self.now.methods }
        ensures found { slice_get self.now.methods method ≡ Some result.now }
        ensures placed { HasMethod self.now method result.now }
        ensures parameters { (place : ℕ) (basic : AnyBasic) → slice_get result.now.parameters place ≡ Some basic → IsBelow (length self.now.kinds) basic }
        ensures given { IfSome result.now.result (IsBelow (length self.now.kinds)) }
    {
        self.methods.get(method)
    }

    /// What the program has of a field.
    pub(crate) fn field(&self, field: usize) -> &LinkedField
        requires { field < length self.now.fields }
        ensures { HasField self.now field result.now }
    {
        self.fields.get(field)
    }
}
