// The local variables and the stack of the topmost frame.
ghost use Rattle.std.specs.Prelude.{◌≡◌, ◌<◌, ◌+◌, [], ◌∷◌, drop, length, slice_get, slice_set, Some, ℕ, ℤ};
ghost use Rattle.cb_plain.specs.declared.value.Value.{Value};
ghost use Rattle.cb_plain.specs.declared.value.Value.TheVariants as values;
ghost use Rattle.cb_frames.specs.Held.{with_change};
ghost use Rattle.cb_frames.specs.Tops.{is_long, locals_in, on_top, room_in, stack_in, with_locals, with_stack};

use crate::frame_stack::FrameStack;
use crate::slot::{int_in, is_long, long_in, slot_of, value_in};
use cb_plain::Value;

impl FrameStack {
    /// A local variable.
    #[inline(always)]
    pub(crate) fn local(&self, i: u32) -> Value
        requires { i < length (on_top [] locals_in self.now.frames) }
        ensures { slice_get (on_top [] locals_in self.now.frames) i ≡ Some result }
    {
        let slot = self.slots.get(self.top.base + i as usize);
        value_in(slot.kind, slot.word)
    }

    /// The number in a local variable, where it holds an int.
    #[inline(always)]
    pub(crate) fn int_local(&self, i: u32) -> i32
        requires { i < length (on_top [] locals_in self.now.frames) }
        ensures { (number : ℤ) → slice_get (on_top [] locals_in self.now.frames) i ≡ Some (values.Int number) → result ≡ number }
    {
        int_in(self.slots.get(self.top.base + i as usize).word)
    }

    /// Gives a local variable another value.
    #[inline(always)]
    pub(crate) fn set_local(&mut self, i: u32, value: Value)
        requires { i < length (on_top [] locals_in self.old.frames) }
        ensures { self.new ≡ with_change self.old (with_locals (λ locals. slice_set locals i value)) }
    {
        self.slots.set(self.top.base + i as usize, slot_of(value));
    }

    /// Puts a value on the stack.
    #[inline(always)]
    pub(crate) fn push(&mut self, value: Value)
        requires { 0 < on_top 0 room_in self.old.frames }
        ensures { self.new ≡ with_change self.old (with_stack (λ stack. value ∷ stack)) }
    {
        self.slots.set(self.top.next, slot_of(value));
        self.top.next += 1;
    }

    /// Puts the value of a local variable on the stack.
    #[inline(always)]
    pub(crate) fn push_local(&mut self, i: u32)
        requires there { i < length (on_top [] locals_in self.old.frames) }
        requires room { 0 < on_top 0 room_in self.old.frames }
        ensures { (value : Value) → slice_get (on_top [] locals_in self.old.frames) i ≡ Some value → self.new ≡ with_change self.old (with_stack (λ stack. value ∷ stack)) }
    {
        let slot = self.slots.get(self.top.base + i as usize);
        self.slots.set(self.top.next, slot);
        self.top.next += 1;
    }

    /// Takes the topmost value from the stack.
    #[inline(always)]
    pub(crate) fn pop(&mut self) -> Value
        requires { 0 < length (on_top [] stack_in self.old.frames) }
        ensures value { slice_get (on_top [] stack_in self.old.frames) 0 ≡ Some result }
        ensures rest { self.new ≡ with_change self.old (with_stack (λ stack. drop 1 stack)) }
        ensures room { on_top 0 room_in self.new.frames ≡ on_top 0 room_in self.old.frames + 1 }
    {
        let next = self.top.next - 1;
        self.top.next = next;
        let slot = self.slots.get(next);
        value_in(slot.kind, slot.word)
    }

    /// Takes the topmost value from the stack into a local variable, and says whether it is a long.
    #[inline(always)]
    pub(crate) fn pop_into(&mut self, i: u32) -> bool
        requires some { 0 < length (on_top [] stack_in self.old.frames) }
        requires there { i < length (on_top [] locals_in self.old.frames) }
        ensures value { (value : Value) → slice_get (on_top [] stack_in self.old.frames) 0 ≡ Some value → self.new ≡ with_change (with_change self.old (with_stack (λ stack. drop 1 stack))) (with_locals (λ locals. slice_set locals i value)) }
        ensures long { (value : Value) → slice_get (on_top [] stack_in self.old.frames) 0 ≡ Some value → result ≡ is_long value }
        ensures room { on_top 0 room_in self.new.frames ≡ on_top 0 room_in self.old.frames + 1 }
    {
        let next = self.top.next - 1;
        let slot = self.slots.get(next);
        self.top.next = next;
        self.slots.set(self.top.base + i as usize, slot);
        is_long(slot.kind)
    }

    /// The value at a depth of the stack; the topmost one is at 0.
    #[inline(always)]
    pub(crate) fn peek(&self, below: u32) -> Value
        requires { below < length (on_top [] stack_in self.now.frames) }
        ensures { slice_get (on_top [] stack_in self.now.frames) below ≡ Some result }
    {
        let slot = self.slots.get(self.top.next - 1 - below as usize);
        value_in(slot.kind, slot.word)
    }

    /// The number at a depth of the stack, where an int is there.
    #[inline(always)]
    pub(crate) fn int(&self, below: u32) -> i32
        requires { below < length (on_top [] stack_in self.now.frames) }
        ensures { (number : ℤ) → slice_get (on_top [] stack_in self.now.frames) below ≡ Some (values.Int number) → result ≡ number }
    {
        int_in(self.slots.get(self.top.next - 1 - below as usize).word)
    }

    /// The number at a depth of the stack, where a long is there.
    #[inline(always)]
    pub(crate) fn long(&self, below: u32) -> i64
        requires { below < length (on_top [] stack_in self.now.frames) }
        ensures { (number : ℤ) → slice_get (on_top [] stack_in self.now.frames) below ≡ Some (values.Long number) → result ≡ number }
    {
        long_in(self.slots.get(self.top.next - 1 - below as usize).word)
    }

    /// The place at a depth of the stack, where a reference is there.
    #[inline(always)]
    pub(crate) fn reference_at(&self, below: u32) -> u64
        requires { below < length (on_top [] stack_in self.now.frames) }
        ensures { (to : ℕ) → slice_get (on_top [] stack_in self.now.frames) below ≡ Some (values.Ref to) → result ≡ to }
    {
        self.slots.get(self.top.next - 1 - below as usize).word
    }

    /// Takes all values from the stack.
    #[inline(always)]
    pub(crate) fn clear_stack(&mut self)
        requires { 0 < length self.old.frames }
        ensures { self.new ≡ with_change self.old (with_stack (λ stack. [])) }
    {
        self.top.next = self.top.floor;
    }
}
