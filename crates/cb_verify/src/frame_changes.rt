// Frames that come from others.
ghost use Rattle.std.specs.Prelude.{◌≡◌, ◌+◌, ◌≤◌, drop, length, option_map, slice_set, if◌then◌else◌, IfOk, Some};
ghost use Rattle.cb_verify.specs.declared.verification_type.VerificationType.TheVariants.{Long, Object, Top};
ghost use Rattle.cb_verify.specs.Frames.{height, is_same, replaced, stored, with_locals};
ghost use Rattle.cb_verify.specs.Leaving.{all_replaced};
ghost use Rattle.cb_verify.specs.Types.{words};

use crate::locals::Locals;
use crate::{TypeFrame, VerificationType};
use cb_persistent::PersistentStack;
use cb_plain::OutOfMemory;
use std::alloc::Global;

impl TypeFrame {
    /// The frame without so many of the topmost values.
    pub(crate) fn below(&self, count: usize) -> Result<Self, OutOfMemory>
        requires { count ≤ length self.now.stack }
        ensures { IfOk result (λ frame. frame ≡ record { locals = self.now.locals; stack = drop count self.now.stack; unfinished = self.now.unfinished }) }
    {
        let words = self.height_below(count);
        Ok(TypeFrame {
            locals: self.locals.share()?,
            stack: self.stack.below(count)?,
            words,
            unfinished: self.unfinished,
        })
    }

    /// How many words the values on the operand stack take, without so many of the topmost.
    fn height_below(&self, count: usize) -> u32
        requires { count ≤ length self.now.stack }
        ensures { result ≡ height (drop count self.now.stack) }
    {
        let mut words = self.height();
        for place in 0..count {
            words -= self.top(place).words();
        }
        words
    }

    /// The frame with a value stored in a local variable, if it has room there (JVMS §4.10.1.7).
    pub(crate) fn stored(
        &self,
        alloc: Global,
        local: u16,
        value: VerificationType,
    ) -> Result<Option<Self>, OutOfMemory>
        ensures { IfOk result (λ frame. frame ≡ option_map (with_locals self.now) (stored local value self.now.locals)) }
    {
        if usize::from(local) + value.words() as usize > self.local_count() {
            return Ok(None);
        }
        let locals = with_stored(alloc, &self.locals, local, value)?;
        Ok(Some(self.with_locals(locals)?))
    }

    /// The frame with another type in place of one, which isn't initialised, in its local variables. Takes time in the number of those
    /// up to which something is known.
    pub(crate) fn with_locals_replaced(
        &self,
        alloc: Global,
        old: VerificationType,
        new: VerificationType,
    ) -> Result<Self, OutOfMemory>
        ensures { IfOk result (λ frame. frame ≡ with_locals self.now (replaced old new self.now.locals)) }
    {
        let locals = self.locals.replaced(alloc, old, new)?;
        self.with_locals(locals)
    }

    /// The frame with other local variables.
    fn with_locals(&self, locals: Locals) -> Result<Self, OutOfMemory>
        ensures { IfOk result (λ frame. frame ≡ with_locals self.now locals) }
    {
        Ok(TypeFrame {
            locals,
            stack: self.stack.share()?,
            words: self.words,
            unfinished: self.unfinished,
        })
    }

    /// The frame after a constructor has made an object of a kind of one that wasn't initialised (JVMS §4.10.1.9.invokespecial). Takes
    /// time in the number of the values on its stack and of the local variables up to which something is known.
    pub(crate) fn with_finished(
        &self,
        alloc: Global,
        old: VerificationType,
        kind: u32,
    ) -> Result<Self, OutOfMemory>
        ensures { IfOk result (λ frame. frame ≡ all_replaced old (Object kind) self.now self.now.stack) }
    {
        let object = VerificationType::Object(kind);
        let locals = self.locals.replaced(alloc, old, object)?;
        let stack = self.stack_replaced(alloc, old, object)?;
        Ok(TypeFrame {
            locals,
            stack,
            words: self.words,
            unfinished: self.unfinished && !old.is_same(VerificationType::This),
        })
    }

    /// The values on the operand stack, with another type in place of one, which isn't initialised.
    fn stack_replaced(
        &self,
        alloc: Global,
        old: VerificationType,
        new: VerificationType,
    ) -> Result<PersistentStack<VerificationType>, OutOfMemory>
        ensures { IfOk result (λ stack. stack ≡ replaced old new self.now.stack) }
    {
        if self.holds(old) {
            self.stack_rebuilt(alloc, old, new)
        } else {
            self.stack.share()
        }
    }

    /// The same, by a push of each value.
    fn stack_rebuilt(
        &self,
        alloc: Global,
        old: VerificationType,
        new: VerificationType,
    ) -> Result<PersistentStack<VerificationType>, OutOfMemory>
        ensures { IfOk result (λ stack. stack ≡ replaced old new self.now.stack) }
    {
        let mut stack = PersistentStack::empty();
        let mut place = self.depth();
        while place > 0 {
            place -= 1;
            stack = stack.push(alloc, type_replaced(self.top(place), old, new))?;
        }
        Ok(stack)
    }
}

/// Local variables with a value stored in one. A long that lay in this one and the one before it is lost.
fn with_stored(
    alloc: Global,
    locals: &Locals,
    local: u16,
    value: VerificationType,
) -> Result<Locals, OutOfMemory>
    requires { local + words value ≤ length locals.now }
    ensures { IfOk result (λ all. Some all ≡ stored local value locals.now) }
{
    if local > 0 {
        let before = usize::from(local) - 1;
        if let VerificationType::Long = locals.get(before) {
            let cleared = locals.with(alloc, before, VerificationType::Top)?;
            return with_placed(alloc, &cleared, local, value);
        }
    }
    with_placed(alloc, locals, local, value)
}

/// Local variables with a value in one, and if it is a long in the next one too.
fn with_placed(
    alloc: Global,
    locals: &Locals,
    local: u16,
    value: VerificationType,
) -> Result<Locals, OutOfMemory>
    requires { local + words value ≤ length locals.now }
    ensures long { value ≡ Long → IfOk result (λ all. all ≡ slice_set (slice_set locals.now local Long) (local + 1) Top) }
    ensures other { words value ≡ 1 → IfOk result (λ all. all ≡ slice_set locals.now local value) }
{
    let number = usize::from(local);
    let placed = locals.with(alloc, number, value)?;
    if let VerificationType::Long = value {
        placed.with(alloc, number + 1, VerificationType::Top)
    } else {
        Ok(placed)
    }
}

/// A type, or another in its place where it is one, which isn't initialised.
fn type_replaced(
    own: VerificationType,
    old: VerificationType,
    new: VerificationType,
) -> VerificationType
    ensures { result ≡ if is_same old own then new else own }
{
    if old.is_same(own) { new } else { own }
}
