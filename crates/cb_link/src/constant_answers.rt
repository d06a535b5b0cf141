// What a running machine asks of the constants of a program.
ghost use Rattle.std.specs.Prelude.{◌≡◌, ◌<◌, length, slice_get, IfSome, Some};
ghost use Rattle.cb_link.specs.Making.{divide_text};
ghost use Rattle.cb_link.specs.Named.{IsThere, catch_kind, handlers_at, kind_at, static_initial};
ghost use Rattle.cb_link.specs.Slots.{statics};
ghost use Rattle.cb_link.specs.InnerPlaces.{constant_of, kind_of};

use crate::constant_table::told_at;
use crate::place_tables::handlers_in;
use crate::{Named, Program};

impl Program {
    /// The number of the kind that the constant at an index of a class names, if it names one.
    pub fn kind_at(&self, class: u32, index: u16) -> Option<u32>
        ensures found { result ≡ kind_at self.now class index }
        ensures within { IfSome result (λ kind. kind < length self.now.kinds) }
    {
        kind_of(self.constant_of(class, Some(index)))
    }

    /// The number of the kind that a handler of a method takes, or `None` where it takes all. Handlers count from 0.
    pub fn catch_kind(&self, method: u32, handler: usize) -> Option<u32>
        requires { handler < length (handlers_at self.now method) }
        ensures found { result ≡ catch_kind self.now method handler }
        ensures within { IfSome result (λ kind. kind < length self.now.kinds) }
    {
        let linked = self.base.linked(method as usize);
        let handlers = handlers_in(&self.method(method).body);
        let entry = &handlers[handler];
        self.kind_at(linked.class, entry.catch_type)
    }

    /// What a static field has before its class is initialised, by its slot among all static fields: nothing where it has no
    /// value of its own (JVMS §4.7.2).
    pub fn static_initial(&self, slot: u32) -> Named
        requires { slot < length (statics self.now.classes) }
        ensures found { result ≡ static_initial self.now slot }
        ensures within { IsThere self.now result }
    {
        let number = *self.tables.members.fields.statics.get(slot as usize);
        let linked = self.base.field(number as usize);
        let class = self.class(linked.class as usize);
        let field = class.fields.get(linked.place as usize);
        self.constant_of(linked.class, field.constant)
    }

    /// The number of the text of the error of a division by zero.
    pub fn divide_text(&self) -> u32
        ensures text { slice_get self.now.constants result ≡ Some divide_text }
        ensures within { result < length self.now.constants }
    {
        let _ = &self.base;
        0
    }

    /// What the constant at an index of a class is.
    fn constant_of(&self, class: u32, index: Option<u16>) -> Named
        ensures { result ≡ constant_of self.now class index }
    {
        if (class as usize) < self.tables.code.constants.rows.len() {
            told_at(self.tables.code.constants.row(class as usize), index)
        } else {
            Named::Nothing
        }
    }
}

/// The kind that it is, if it is one.
fn kind_of(named: Named) -> Option<u32>
    ensures { result ≡ kind_of named }
{
    match named {
        Named::Kind(kind) => Some(kind),
        _ => None,
    }
}
