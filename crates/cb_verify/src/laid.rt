// Values in local variables.
ghost use Rattle.std.specs.Prelude.{◌≡◌, ◌-◌, ◌<◌, [], ◌∷◌, ◌++◌, length, option_and_then, take, IfOk, Some};
ghost use Rattle.cb_classfile.specs.Expansion.{without_last};
ghost use Rattle.cb_verify.specs.InnerLaid.{bare, laid_in, this_count};

use crate::locals::Locals;
use crate::{TypeFrame, VerificationType};
use cb_persistent::PersistentArray;
use cb_plain::OutOfMemory;
use std::alloc::Global;
use std::marker::Model;

/// The values in the local variables of a frame, and these, a long taking two (JVMS §4.10.1.4).
///
/// A value at the end is added or taken off in time and memory in the logarithm of the number of the local variables, which frames
/// share with this.
#[derive(Drop)]
pub(crate) struct Laid {
    values: Vec<VerificationType>,
    locals: PersistentArray<VerificationType>,
    // How many local variables the values take, and how many of the values are the object of a constructor that is unfinished.
    words: usize,
    unfinished: usize,
}

impl Model for Laid {
    ghost use Rattle.std.specs.Prelude.{◌≡◌, length, Some};
    ghost use Rattle.cb_verify.specs.Frames.{height, laid};
    ghost use Rattle.cb_verify.specs.InnerLaid.{Laid as Lying, this_count};

    ghost Value = { Lying };

    ghost view = { λ all. record { values = all.values.items; locals = all.locals } };

    ghost invariant = { λ all. (laid (length all.locals) all.values.items ≡ Some all.locals) × (all.words ≡ height all.values.items) × (all.unfinished ≡ this_count all.values.items) };
}

impl Laid {
    /// No values in so many local variables.
    pub fn empty(alloc: Global, most: u16) -> Result<Self, OutOfMemory>
        ensures { IfOk result (λ all. Some all ≡ laid_in most []) }
    {
        let locals = PersistentArray::filled(alloc, usize::from(most), VerificationType::Top)?;
        Ok(Laid {
            values: Vec::new(alloc),
            locals,
            words: 0,
            unfinished: 0,
        })
    }

    /// These and one more, if there is room for it.
    pub fn push(self, alloc: Global, value: VerificationType) -> Result<Option<Self>, OutOfMemory>
        ensures { IfOk result (λ all. all ≡ laid_in (length self.locals) (self.values ++ value ∷ [])) }
    {
        let Laid {
            mut values,
            locals,
            words,
            unfinished,
        } = self;
        let more = value.words() as usize;
        if more > locals.len() - words {
            return Ok(None);
        }
        values.push(value)?;
        Ok(Some(Laid {
            values,
            locals: locals.with(alloc, words, value)?,
            words: words + more,
            unfinished: unfinished + this_count(value),
        }))
    }

    /// These without the last one.
    fn pop(self, alloc: Global) -> Result<Self, OutOfMemory>
        requires { 0 < length self.values }
        ensures { IfOk result (λ all. Some all ≡ laid_in (length self.locals) (take (length self.values - 1) self.values)) }
    {
        let Laid {
            mut values,
            locals,
            words,
            unfinished,
        } = self;
        let Some(value) = values.pop() else {
            unreachable!()
        };
        let words = words - value.words() as usize;
        Ok(Laid {
            values,
            locals: locals.with(alloc, words, VerificationType::Top)?,
            words,
            unfinished: unfinished - this_count(value),
        })
    }

    /// These and more behind them, if there is room for all.
    pub fn append(
        self,
        alloc: Global,
        more: &[VerificationType],
    ) -> Result<Option<Self>, OutOfMemory>
        ensures { IfOk result (λ all. all ≡ laid_in (length self.locals) (self.values ++ more.now)) }
    {
        let _ = &self.values;
        let mut all = self;
        for value in more {
            match all.push(alloc, *value)? {
                Some(longer) => all = longer,
                None => return Ok(None),
            }
        }
        Ok(Some(all))
    }

    /// These without so many at the end, if there are so many.
    pub fn without_last(self, alloc: Global, count: u8) -> Result<Option<Self>, OutOfMemory>
        ensures { IfOk result (λ all. all ≡ option_and_then (laid_in (length self.locals)) (without_last count self.values)) }
    {
        if self.values.len() < usize::from(count) {
            return Ok(None);
        }
        let mut all = self;
        for _ in 0..count {
            all = all.pop(alloc)?;
        }
        Ok(Some(all))
    }

    /// The frame with these local variables and nothing on its operand stack. Of those behind the values nothing is known.
    pub fn bare(&self) -> Result<TypeFrame, OutOfMemory>
        ensures { IfOk result (λ frame. frame ≡ bare self.now) }
    {
        let locals = Locals::of(self.locals.share()?, self.words);
        Ok(TypeFrame::with_empty_stack(locals, self.unfinished > 0))
    }
}

/// How many values the object of an unfinished constructor is, of this one.
fn this_count(value: VerificationType) -> usize
    ensures { result ≡ this_count (value ∷ []) }
{
    match value {
        VerificationType::This => 1,
        _ => 0,
    }
}
