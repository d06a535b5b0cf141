// What a machine asks of fields.
ghost use Rattle.std.specs.Prelude.{◌≡◌, ◌<◌, length, option_map, slice_get, IfSome, Some};
ghost use Rattle.cb_classfile.specs.Pool.{text_at};
ghost use Rattle.cb_link.specs.Having.{IsBelow};
ghost use Rattle.cb_link.specs.Numbers.{or_none};
ghost use Rattle.cb_link.specs.Slots.{enum_statics, field_basic, object_fields, shape, static_at, static_basic, statics};

use crate::Program;
use crate::descriptors::text_or_none;
use cb_kinds::Basic;
use cb_plain::{Numbers, Shape};

impl Program {
    /// How many static fields the program has. A slot of a static field is its place among them, by class and then as the class
    /// lists them.
    pub fn static_count(&self) -> u32
        ensures { result ≡ length (statics self.now.classes) }
    {
        self.tables.members.fields.statics.len() as u32
    }

    /// The number of the class that declares a static field.
    pub fn static_class(&self, slot: u32) -> u32
        requires { slot < length (statics self.now.classes) }
        ensures declares { option_map (λ field. field.class) (static_at self.now slot) ≡ Some result }
        ensures within { result < length self.now.classes }
    {
        self.base
            .linked_field(*self.tables.members.fields.statics.get(slot as usize))
            .class
    }

    /// The name of a static field.
    pub fn static_name(&self, slot: u32) -> &[u16]
        requires { slot < length (statics self.now.classes) }
        ensures { option_map (λ field. or_none (text_at field.pool field.member.name)) (static_at self.now slot) ≡ Some result.now }
    {
        let number = *self.tables.members.fields.statics.get(slot as usize);
        let field = self.base.field_record(number);
        text_or_none(&self.base.declaring(number).pool, field.name)
    }

    /// What the values of a static field are.
    pub fn static_basic(&self, slot: u32) -> Basic
        requires { slot < length (statics self.now.classes) }
        ensures basic { static_basic self.now slot ≡ Some result }
        ensures within { IsBelow (length self.now.kinds) result }
    {
        self.base
            .linked_field(*self.tables.members.fields.statics.get(slot as usize))
            .basic
    }

    /// The slot of a constant of an enum, by its place among them, or none where there are no more.
    pub fn enum_static(&self, class: u32, constant: usize) -> Option<u32>
        requires { class < length self.now.classes }
        ensures found { result ≡ slice_get (enum_statics self.now.classes class) constant }
        ensures within { IfSome result (λ slot. slot < length (statics self.now.classes)) }
    {
        entry(&self.tables.members.fields.enums[class as usize], constant)
    }

    /// How many fields an object of a class has, those of its superclasses among them.
    pub fn field_count(&self, class: u32) -> usize
        requires { class < length self.now.classes }
        ensures { result ≡ length (object_fields self.now.classes class) }
    {
        self.tables.members.fields.layouts.get(class as usize).len()
    }

    /// What the values of a field of an object of a class are.
    pub fn field_basic(&self, class: u32, slot: u32) -> Basic
        requires class { class < length self.now.classes }
        requires slot { slot < length (object_fields self.now.classes class) }
        ensures basic { field_basic self.now class slot ≡ Some result }
        ensures within { IsBelow (length self.now.kinds) result }
    {
        let layout = self.tables.members.fields.layouts.get(class as usize);
        self.base.linked_field(*layout.get(slot as usize)).basic
    }

    /// Which words of an object of a kind hold references.
    pub fn shape(&self, kind: u32) -> &Shape
        requires { kind < length self.now.kinds }
        ensures { result.now ≡ shape self.now kind }
    {
        self.tables.members.fields.shapes.get(kind as usize)
    }
}

/// The number at a place, if there is one.
fn entry(numbers: &Numbers, place: usize) -> Option<u32>
    ensures { result ≡ slice_get numbers.now place }
{
    numbers.as_slice().get(place).copied()
}
