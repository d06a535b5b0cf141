// Frames of types.
ghost use Rattle.std.specs.Prelude.{◌≡◌, ◌<◌, [], ◌∷◌, length, slice_get, IfOk, Some};
ghost use Rattle.std.specs.Cmp.Lexicographic.{pointwise};
ghost use Rattle.std.specs.List.{list_any};
ghost use Rattle.cb_verify.specs.Frames.{frame_goes_to, height, is_same, loaded, with_stack};
ghost use Rattle.cb_verify.specs.Types.{goes_to};

use crate::VerificationType;
use crate::locals::Locals;
use cb_link::Program;
use cb_persistent::PersistentStack;
use cb_plain::OutOfMemory;
use cb_shapes::Sort;
use std::alloc::Global;
use std::marker::Model;

/// What is known of the local variables and the operand stack before an instruction (JVMS §4.10.1.4).
///
/// Frames share what they have in common: one that differs from another in a local variable or in the top of its stack takes memory
/// in the logarithm of their number.
#[derive(Drop)]
pub struct TypeFrame {
    pub(crate) locals: Locals,
    pub(crate) stack: PersistentStack<VerificationType>,
    pub(crate) words: u32,
    pub(crate) unfinished: bool,
}

impl Model for TypeFrame {
    ghost use Rattle.std.specs.Prelude.{◌≡◌};
    ghost use Rattle.cb_verify.specs.Frames.{Frame, height};

    ghost Value = { Frame };

    ghost view = { λ frame. record { locals = frame.locals; stack = frame.stack; unfinished = frame.unfinished } };

    ghost invariant = { λ frame. frame.words ≡ height frame.stack };
}

impl TypeFrame {
    /// The frame with these local variables and nothing on the operand stack.
    pub(crate) fn with_empty_stack(locals: Locals, unfinished: bool) -> Self
        ensures { result ≡ record { locals = locals; stack = []; unfinished = unfinished } }
    {
        TypeFrame {
            locals,
            stack: PersistentStack::empty(),
            words: 0,
            unfinished,
        }
    }

    /// How many local variables the method has.
    pub fn local_count(&self) -> usize
        ensures { result ≡ length self.now.locals }
    {
        self.locals.len()
    }

    /// The type of what a local variable holds. A long is followed by `Top`.
    pub fn local(&self, number: usize) -> VerificationType
        requires { number < length self.now.locals }
        ensures { slice_get self.now.locals number ≡ Some result }
    {
        self.locals.get(number)
    }

    /// How many values are on the operand stack. A long is one.
    pub fn depth(&self) -> usize
        ensures { result ≡ length self.now.stack }
    {
        self.stack.len()
    }

    /// The type of a value on the operand stack, the topmost being at 0.
    pub fn top(&self, place: usize) -> VerificationType
        requires { place < length self.now.stack }
        ensures { slice_get self.now.stack place ≡ Some result }
    {
        self.stack.top(place)
    }

    /// Whether the method is a constructor that has yet to call another.
    pub fn is_unfinished(&self) -> bool
        ensures { result ≡ self.now.unfinished }
    {
        self.unfinished
    }

    /// How many words the values on the operand stack take.
    pub(crate) fn height(&self) -> u32
        ensures { result ≡ height self.now.stack }
    {
        self.words
    }

    /// The type of what a local variable holds, if it is of a sort.
    pub(crate) fn loaded(&self, sort: Sort, local: u16) -> Option<VerificationType>
        ensures { result ≡ loaded sort local self.now }
    {
        let number = usize::from(local);
        if number >= self.local_count() {
            return None;
        }
        let value = self.local(number);
        if value.is_of(sort) { Some(value) } else { None }
    }

    /// Whether a value on the operand stack is the same object, which isn't initialised.
    pub(crate) fn holds(&self, value: VerificationType) -> bool
        ensures { result ≡ list_any (is_same value) self.now.stack }
    {
        for place in 0..self.depth() {
            if value.is_same(self.top(place)) {
                return true;
            }
        }
        false
    }

    /// Whether the frame is assignable to another (JVMS §4.10.1.4). Takes time in the number of the values on its stack and of the
    /// local variables up to which something is known of the other, times the logarithm of all.
    pub(crate) fn goes_to(&self, program: &Program, other: &TypeFrame) -> bool
        ensures { result ≡ frame_goes_to program.now self.now other.now }
    {
        self.locals_go_to(program, other)
            && self.stack_goes_to(program, other)
            && (!self.is_unfinished() || other.is_unfinished())
    }

    /// Whether each local variable is assignable to that of another frame, which has as many. Takes time in the number of those up to
    /// which something is known of the other, times the logarithm of all.
    pub(crate) fn locals_go_to(&self, program: &Program, other: &TypeFrame) -> bool
        ensures { result ≡ pointwise (goes_to program.now) self.now.locals other.now.locals }
    {
        self.locals.goes_to(program, &other.locals)
    }

    /// The same frame once more.
    pub(crate) fn share(&self) -> Result<Self, OutOfMemory>
        ensures { IfOk result (λ frame. frame ≡ self.now) }
    {
        Ok(TypeFrame {
            locals: self.locals.share()?,
            stack: self.stack.share()?,
            words: self.words,
            unfinished: self.unfinished,
        })
    }

    /// The frame, if its stack may have so many words.
    pub(crate) fn legal(self, most: u16) -> Option<Self>
        ensures { result ≡ with_stack most self self.stack }
    {
        if self.words <= u32::from(most) {
            Some(self)
        } else {
            None
        }
    }

    /// The frame with one more value on the stack, if that may have so many words.
    pub(crate) fn push(
        &self,
        alloc: Global,
        most: u16,
        value: VerificationType,
    ) -> Result<Option<Self>, OutOfMemory>
        ensures { IfOk result (λ frame. frame ≡ with_stack most self.now (value ∷ self.now.stack)) }
    {
        let words = self.words.saturating_add(value.words());
        if words > u32::from(most) {
            return Ok(None);
        }
        Ok(Some(TypeFrame {
            locals: self.locals.share()?,
            stack: self.stack.push(alloc, value)?,
            words,
            unfinished: self.unfinished,
        }))
    }
}
