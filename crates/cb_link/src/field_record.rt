// The records of fields.
ghost use Rattle.std.specs.Prelude.{◌≡◌, ◌<◌, length, option_map, slice_get, Some};
ghost use Rattle.cb_link.specs.InnerCounts.{HasField};
ghost use Rattle.cb_link.specs.Having.{IsBelow};
ghost use Rattle.cb_link.specs.Numbers.{fields_of};

use crate::LinkedField;
use crate::base::Base;
use cb_classfile::{ClassFile, Field};

impl Base {
    /// The record of a class, by its number.
    pub(crate) fn class(&self, number: u32) -> &ClassFile
        requires { number < length self.now.classes }
        ensures { slice_get self.now.classes number ≡ Some result.now }
    {
        self.resolver.classes().get(number as usize)
    }

    /// What linking numbers of a field.
    pub(crate) fn linked_field(&self, number: u32) -> &LinkedField
        requires { number < length self.now.fields }
        ensures found { slice_get self.now.fields number ≡ Some result.now }
        ensures placed { HasField self.now number result.now }
        ensures within { IsBelow (length self.now.kinds) result.now.basic }
    {
        self.fields.get(number as usize)
    }

    /// The record of the class that declares a field.
    pub(crate) fn declaring(&self, field: u32) -> &ClassFile
        requires { field < length self.now.fields }
        ensures class { option_map (λ numbered. slice_get self.now.classes numbered.class) (slice_get (fields_of self.now.classes) field) ≡ Some (Some result.now) }
        ensures pool { option_map (λ numbered. numbered.pool) (slice_get (fields_of self.now.classes) field) ≡ Some result.now.pool }
    {
        let linked = self.linked_field(field);
        self.class(linked.class)
    }

    /// The record of a field.
    pub(crate) fn field_record(&self, field: u32) -> &Field
        requires { field < length self.now.fields }
        ensures { option_map (λ numbered. numbered.member) (slice_get (fields_of self.now.classes) field) ≡ Some result.now }
    {
        let linked = self.linked_field(field);
        let class = self.class(linked.class);
        class.fields.get(linked.place as usize)
    }
}
