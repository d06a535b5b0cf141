// What the roots have beside frames.
ghost use Rattle.std.specs.Prelude.{◌≡◌, ◌<◌, length, slice_get, Some};
ghost use Rattle.cb_plain.specs.Roots.{table_in, with_argument, with_class, with_entry, with_pending, with_static};
ghost use Rattle.cb_frames.specs.Limited.{with_roots};

use crate::Roots;
use cb_plain::{ClassState, Table, Value};

impl Roots {
    /// The value of a static field.
    #[inline(always)]
    pub fn static_value(&self, i: u32) -> Value
        requires { i < length self.now.roots.statics }
        ensures { slice_get self.now.roots.statics i ≡ Some result }
    {
        self.statics[i as usize]
    }

    /// Gives a static field another value.
    #[inline(always)]
    pub fn set_static(&mut self, i: u32, value: Value)
        requires { i < length self.old.roots.statics }
        ensures { self.new ≡ with_roots self.old (with_static self.old.roots i value) }
    {
        self.statics[i as usize] = value;
    }

    /// The object at a place of a table, 0 where there is none yet.
    pub fn table(&self, which: Table, i: u32) -> u64
        requires { i < length (table_in self.now.roots.tables which) }
        ensures { slice_get (table_in self.now.roots.tables which) i ≡ Some result }
    {
        self.tables.get(which, i)
    }

    /// Puts an object at a place of a table.
    pub fn set_table(&mut self, which: Table, i: u32, to: u64)
        requires { i < length (table_in self.old.roots.tables which) }
        ensures { self.new ≡ with_roots self.old (with_entry self.old.roots which i to) }
    {
        self.tables.set(which, i, to);
    }

    /// The pending exception, 0 where there is none.
    #[inline(always)]
    pub fn pending(&self) -> u64
        ensures { result ≡ self.now.roots.pending }
    {
        self.pending
    }

    /// Makes an object the pending exception; 0 takes it away.
    #[inline(always)]
    pub fn set_pending(&mut self, to: u64)
        ensures { self.new ≡ with_roots self.old (with_pending self.old.roots to) }
    {
        self.pending = to;
    }

    /// The array of arguments that waits for `main`, 0 where none does.
    pub fn argument(&self) -> u64
        ensures { result ≡ self.now.roots.argument }
    {
        self.argument
    }

    /// Lets an array of arguments wait for `main`; 0 takes it away.
    pub fn set_argument(&mut self, to: u64)
        ensures { self.new ≡ with_roots self.old (with_argument self.old.roots to) }
    {
        self.argument = to;
    }

    /// How far the initialisation of a class is.
    #[inline(always)]
    pub fn state(&self, class: u32) -> ClassState
        requires { class < length self.now.roots.classes }
        ensures { slice_get self.now.roots.classes class ≡ Some result }
    {
        self.classes[class as usize]
    }

    /// Says how far the initialisation of a class is.
    pub fn set_state(&mut self, class: u32, to: ClassState)
        requires { class < length self.old.roots.classes }
        ensures { self.new ≡ with_roots self.old (with_class self.old.roots class to) }
    {
        self.classes[class as usize] = to;
    }
}
