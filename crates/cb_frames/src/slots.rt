// The local variables and the stack of the topmost frame of the roots.
ghost use Rattle.std.specs.Prelude.{◌≡◌, ◌<◌, ◌+◌, length, slice_get, IsTrue, Some, ℕ, ℤ};
ghost use Rattle.cb_plain.specs.declared.value.Value.{Value};
ghost use Rattle.cb_plain.specs.declared.value.Value.TheVariants as values;
ghost use Rattle.cb_frames.specs.Limited.{with_roots};
ghost use Rattle.cb_frames.specs.Tops.{cleared, is_long, pushed, runs_method, top_locals, top_room, top_stack, with_local, without};

use crate::Roots;
use cb_plain::Value;

impl Roots {
    /// The value of a local variable of the topmost frame.
    #[inline(always)]
    pub fn local(&self, i: u32) -> Value
        requires { i < length (top_locals self.now.roots) }
        ensures { slice_get (top_locals self.now.roots) i ≡ Some result }
    {
        self.frames.local(i)
    }

    /// The number in a local variable of the topmost frame, where it holds an int; else no number that means anything.
    #[inline(always)]
    pub fn int_local(&self, i: u32) -> i32
        requires { i < length (top_locals self.now.roots) }
        ensures { (number : ℤ) → slice_get (top_locals self.now.roots) i ≡ Some (values.Int number) → result ≡ number }
    {
        self.frames.int_local(i)
    }

    /// Gives a local variable of the topmost frame another value. It is one slot: a long takes the next one too, which stays as it is.
    #[inline(always)]
    pub fn set_local(&mut self, i: u32, value: Value)
        requires { i < length (top_locals self.old.roots) }
        ensures { self.new ≡ with_roots self.old (with_local self.old.roots i value) }
    {
        self.frames.set_local(i, value);
    }

    /// Puts a value on the stack of the topmost frame, where it has room.
    #[inline(always)]
    pub fn push(&mut self, value: Value)
        requires { 0 < top_room self.old.roots }
        ensures { self.new ≡ with_roots self.old (pushed self.old.roots value) }
    {
        self.frames.push(value);
    }

    /// Puts the value of a local variable of the topmost frame on its stack, where that has room.
    #[inline(always)]
    pub fn push_local(&mut self, i: u32)
        requires there { i < length (top_locals self.old.roots) }
        requires room { 0 < top_room self.old.roots }
        ensures { (value : Value) → slice_get (top_locals self.old.roots) i ≡ Some value → self.new ≡ with_roots self.old (pushed self.old.roots value) }
    {
        self.frames.push_local(i);
    }

    /// Takes the topmost value from the stack of the topmost frame.
    #[inline(always)]
    pub fn pop(&mut self) -> Value
        requires { 0 < length (top_stack self.old.roots) }
        ensures value { slice_get (top_stack self.old.roots) 0 ≡ Some result }
        ensures rest { self.new ≡ with_roots self.old (without self.old.roots 1) }
        ensures room { top_room self.new.roots ≡ top_room self.old.roots + 1 }
    {
        self.frames.pop()
    }

    /// Takes the topmost value from the stack of the topmost frame into a local variable, and answers whether it is a long. The variable is
    /// one slot: a long takes the next one too, which stays as it is.
    #[inline(always)]
    pub fn pop_into(&mut self, i: u32) -> bool
        requires some { 0 < length (top_stack self.old.roots) }
        requires there { i < length (top_locals self.old.roots) }
        ensures value { (value : Value) → slice_get (top_stack self.old.roots) 0 ≡ Some value → self.new ≡ with_roots self.old (with_local (without self.old.roots 1) i value) }
        ensures long { (value : Value) → slice_get (top_stack self.old.roots) 0 ≡ Some value → result ≡ is_long value }
        ensures room { top_room self.new.roots ≡ top_room self.old.roots + 1 }
    {
        self.frames.pop_into(i)
    }

    /// The value at a depth of the stack of the topmost frame; the topmost value is at 0.
    #[inline(always)]
    pub fn peek(&self, below: u32) -> Value
        requires { below < length (top_stack self.now.roots) }
        ensures { slice_get (top_stack self.now.roots) below ≡ Some result }
    {
        self.frames.peek(below)
    }

    /// The number at a depth of the stack of the topmost frame, where an int is there; else no number that means anything.
    #[inline(always)]
    pub fn int(&self, below: u32) -> i32
        requires { below < length (top_stack self.now.roots) }
        ensures { (number : ℤ) → slice_get (top_stack self.now.roots) below ≡ Some (values.Int number) → result ≡ number }
    {
        self.frames.int(below)
    }

    /// The number at a depth of the stack of the topmost frame, where a long is there; else no number that means anything.
    #[inline(always)]
    pub fn long(&self, below: u32) -> i64
        requires { below < length (top_stack self.now.roots) }
        ensures { (number : ℤ) → slice_get (top_stack self.now.roots) below ≡ Some (values.Long number) → result ≡ number }
    {
        self.frames.long(below)
    }

    /// The place at a depth of the stack of the topmost frame, where a reference is there; else no place that means anything.
    #[inline(always)]
    pub fn reference_at(&self, below: u32) -> u64
        requires { below < length (top_stack self.now.roots) }
        ensures { (to : ℕ) → slice_get (top_stack self.now.roots) below ≡ Some (values.Ref to) → result ≡ to }
    {
        self.frames.reference_at(below)
    }

    /// Takes all values from the stack of the topmost frame, which is a method's.
    #[inline(always)]
    pub fn clear_stack(&mut self)
        requires { IsTrue (runs_method self.old.roots) }
        ensures { self.new ≡ with_roots self.old (cleared self.old.roots) }
    {
        self.frames.clear_stack();
    }
}
