// Methods and fields that are found by class and signature.
ghost use Rattle.std.specs.Prelude.{◌≡◌, ◌<◌, length, map, option_copied, slice_get, IfOk, Some};
ghost use Rattle.cb_hierarchy.specs.Members.{AreMembers, field_of, method_of};
ghost use Rattle.cb_hierarchy.specs.InnerReaching.{signature_of};

use crate::index::{Index, Member};
use crate::{Declared, Field, Fields, Method, Methods};
use cb_plain::OutOfMemory;
use std::alloc::Global;
use std::marker::Model;

impl Member for Method {
    ghost declared = { λ method. method.declared };

    fn declared(&self) -> Declared {
        self.declared
    }
}

impl Member for Field {
    ghost declared = { λ field. field.declared };

    fn declared(&self) -> Declared {
        self.declared
    }
}

/// Methods by their numbers, which are found by class and signature too. Contracts see it as the list of methods.
#[derive(Debug, Drop)]
pub struct MethodTable {
    methods: Methods,
    index: Index,
}

impl Model for MethodTable {
    ghost use Rattle.std.specs.Prelude.{List, map};
    ghost use Rattle.std.specs.HashMap.{get};
    ghost use Rattle.cb_hierarchy.specs.InnerIndex.{IsIndexOf, same_member};
    ghost use Rattle.cb_hierarchy.specs.Members.{AreMembers};
    ghost use Rattle.cb_hierarchy.specs.declared.member.Method.{Method as Declaration};

    ghost Value = { List Declaration };

    ghost view = { λ table. table.methods };

    ghost invariant = { λ table. AreMembers (map (λ method. method.declared) table.methods)
        × IsIndexOf (map (λ method. method.declared) table.methods) (get same_member table.index.numbers) };
}

impl MethodTable {
    /// The table of methods. `OutOfMemory` where no memory was to be had. Takes expected time in their number.
    pub fn of(alloc: Global, methods: Methods) -> Result<Self, OutOfMemory>
        requires { AreMembers (map (λ method. method.declared) methods) }
        ensures { IfOk result (λ table. table ≡ methods) }
    {
        let index = Index::of(alloc, methods.as_slice())?;
        Ok(MethodTable { methods, index })
    }

    /// How many methods there are.
    pub fn len(&self) -> usize
        ensures { result ≡ length self.now }
    {
        self.methods.len()
    }

    /// The method of a number.
    pub fn method(&self, number: u32) -> &Method
        requires { number < length self.now }
        ensures { slice_get self.now number ≡ Some result.now }
    {
        self.methods.get(number as usize)
    }

    /// How many methods there are.
    pub(crate) fn count(&self) -> u32
        ensures { result ≡ length self.now }
    {
        self.methods.len() as u32
    }

    /// The signature of the method of a number.
    pub(crate) fn signature(&self, number: u32) -> u32
        requires { number < length self.now }
        ensures value { result ≡ signature_of self.now number }
        ensures small { result < length self.now }
    {
        self.methods.get(number as usize).declared.signature
    }

    /// The method of a number, if there is one.
    pub(crate) fn get(&self, number: u32) -> Option<&Method>
        ensures { option_copied result ≡ slice_get self.now number }
    {
        self.methods.as_slice().get(number as usize)
    }

    /// The number of the first method of a signature that a class declares, in constant expected time.
    pub fn declared(&self, class: u32, signature: u32) -> Option<u32>
        ensures { result ≡ method_of self.now class signature }
    {
        self.index.number(class, signature)
    }
}

/// Fields by their numbers, which are found by class and signature too. Contracts see it as the list of fields.
#[derive(Debug, Drop)]
pub struct FieldTable {
    fields: Fields,
    index: Index,
}

impl Model for FieldTable {
    ghost use Rattle.std.specs.Prelude.{List, map};
    ghost use Rattle.std.specs.HashMap.{get};
    ghost use Rattle.cb_hierarchy.specs.InnerIndex.{IsIndexOf, same_member};
    ghost use Rattle.cb_hierarchy.specs.Members.{AreMembers};
    ghost use Rattle.cb_hierarchy.specs.declared.member.Field.{Field as Declaration};

    ghost Value = { List Declaration };

    ghost view = { λ table. table.fields };

    ghost invariant = { λ table. AreMembers (map (λ field. field.declared) table.fields)
        × IsIndexOf (map (λ field. field.declared) table.fields) (get same_member table.index.numbers) };
}

impl FieldTable {
    /// The table of fields. `OutOfMemory` where no memory was to be had. Takes expected time in their number.
    pub fn of(alloc: Global, fields: Fields) -> Result<Self, OutOfMemory>
        requires { AreMembers (map (λ field. field.declared) fields) }
        ensures { IfOk result (λ table. table ≡ fields) }
    {
        let index = Index::of(alloc, fields.as_slice())?;
        Ok(FieldTable { fields, index })
    }

    /// How many fields there are.
    pub fn len(&self) -> usize
        ensures { result ≡ length self.now }
    {
        self.fields.len()
    }

    /// The field of a number.
    pub fn field(&self, number: u32) -> &Field
        requires { number < length self.now }
        ensures { slice_get self.now number ≡ Some result.now }
    {
        self.fields.get(number as usize)
    }

    /// How many fields there are.
    pub(crate) fn count(&self) -> u32
        ensures { result ≡ length self.now }
    {
        self.fields.len() as u32
    }

    /// The number of the first field of a signature that a class declares, in constant expected time.
    pub fn declared(&self, class: u32, signature: u32) -> Option<u32>
        ensures { result ≡ field_of self.now class signature }
    {
        self.index.number(class, signature)
    }
}
