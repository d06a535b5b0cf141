// Frames after the instructions that only move what is on the operand stack.
ghost use Rattle.std.specs.Prelude.{◌≡◌, ◌+◌, ◌<◌, ◌≤◌, ◌∷◌, ◌++◌, drop, length, option_and_then, take, true, IfOk, IfSome};
ghost use Rattle.cb_shapes.specs.Shuffles.{shuffled};
ghost use Rattle.cb_verify.specs.InnerCopies.{begins_with, copied, count_of, count_of_any, dropped, is_category, swapped, two_of};
ghost use Rattle.cb_verify.specs.Frames.{with_stack};
ghost use Rattle.cb_verify.specs.Types.{category};

use crate::{TypeFrame, VerificationType};
use cb_plain::OutOfMemory;
use cb_shapes::{Category, Shuffle};
use std::alloc::{AllocError, Global};

impl TypeFrame {
    /// The frame after an instruction that only moves what is on the operand stack, if the values there are of the categories of one
    /// of its forms, and if the stack may have so many words (JVMS §6.5, pop to swap).
    pub(crate) fn shuffled(
        &self,
        alloc: Global,
        most: u16,
        shuffle: Shuffle,
    ) -> Result<Option<Self>, OutOfMemory>
        ensures { IfOk result (λ frame. frame ≡ option_and_then (with_stack most self.now) (shuffled category shuffle self.now.stack)) }
    {
        match shuffle {
            Shuffle::Pop => self.dropped(most, Category::One),
            Shuffle::Pop2 => self.dropped(most, Category::Two),
            Shuffle::Dup => self.copied(alloc, most, Category::One, None),
            Shuffle::DupX1 => self.copied(alloc, most, Category::One, Some(Category::One)),
            Shuffle::DupX2 => self.copied(alloc, most, Category::One, Some(Category::Two)),
            Shuffle::Dup2 => self.copied(alloc, most, Category::Two, None),
            Shuffle::Dup2X1 => self.copied(alloc, most, Category::Two, Some(Category::One)),
            Shuffle::Dup2X2 => self.copied(alloc, most, Category::Two, Some(Category::Two)),
            Shuffle::Swap => self.swapped(alloc, most),
        }
    }

    /// The frame without the topmost value of a category, or two of category one in place of one of category two.
    fn dropped(&self, most: u16, wanted: Category) -> Result<Option<Self>, OutOfMemory>
        ensures { IfOk result (λ frame. frame ≡ option_and_then (with_stack most self.now) (dropped wanted self.now.stack)) }
    {
        match self.count_of(0, wanted) {
            Some(count) => Ok(self.below(count)?.legal(most)),
            None => Ok(None),
        }
    }

    /// The frame with copies of what is topmost and of a category, put below that and, where another category is given, below what is
    /// of that one too.
    fn copied(
        &self,
        alloc: Global,
        most: u16,
        wanted: Category,
        under: Option<Category>,
    ) -> Result<Option<Self>, OutOfMemory>
        ensures { IfOk result (λ frame. frame ≡ option_and_then (with_stack most self.now) (copied wanted under self.now.stack)) }
    {
        let Some(count) = self.count_of(0, wanted) else {
            return Ok(None);
        };
        let Some(more) = self.count_of_any(count, under) else {
            return Ok(None);
        };
        let below = self.below(count + more)?;
        let copied = self.put_on(alloc, below, count)?;
        let all = self.put_on(alloc, copied, count + more)?;
        Ok(all.legal(most))
    }

    /// The frame with the two topmost values in each other's place, if both are of category one.
    fn swapped(&self, alloc: Global, most: u16) -> Result<Option<Self>, OutOfMemory>
        ensures { IfOk result (λ frame. frame ≡ option_and_then (with_stack most self.now) (swapped self.now.stack)) }
    {
        if !self.is_of_category(0, Category::One) || !self.is_of_category(1, Category::One) {
            return Ok(None);
        }
        let below = self.below(2)?;
        let other = below.with_top(alloc, self.top(0))?;
        let all = other.with_top(alloc, self.top(1))?;
        Ok(all.legal(most))
    }

    /// Whether at a place on the stack there is a value of a category.
    fn is_of_category(&self, place: usize, wanted: Category) -> bool
        ensures is_of { result ≡ begins_with wanted (drop place self.now.stack) }
        ensures within { result ≡ true → place < length self.now.stack }
    {
        place < self.depth() && is_category(wanted, self.top(place).category())
    }

    /// How many values from a place on take as many words as one of a category: two of category one stand for one of category two.
    fn count_of(&self, place: usize, wanted: Category) -> Option<usize>
        requires { place ≤ 2 }
        ensures count { result ≡ count_of wanted (drop place self.now.stack) }
        ensures few { IfSome result (λ count. count ≤ 2) }
        ensures within { IfSome result (λ count. place + count ≤ length self.now.stack) }
    {
        if self.is_of_category(place, wanted) {
            return Some(1);
        }
        match wanted {
            Category::One => None,
            Category::Two => self.two_from(place),
        }
    }

    /// Two, if from a place on there are as many values of category one.
    fn two_from(&self, place: usize) -> Option<usize>
        requires { place ≤ 2 }
        ensures count { result ≡ two_of (drop place self.now.stack) }
        ensures few { IfSome result (λ count. count ≤ 2) }
        ensures within { IfSome result (λ count. place + count ≤ length self.now.stack) }
    {
        if !self.is_of_category(place, Category::One) {
            return None;
        }
        if self.is_of_category(place + 1, Category::One) {
            Some(2)
        } else {
            None
        }
    }

    /// The same of a category, if there is one.
    fn count_of_any(&self, place: usize, wanted: Option<Category>) -> Option<usize>
        requires few { place ≤ 2 }
        requires within { place ≤ length self.now.stack }
        ensures count { result ≡ count_of_any wanted (drop place self.now.stack) }
        ensures few { IfSome result (λ count. count ≤ 2) }
        ensures within { IfSome result (λ count. place + count ≤ length self.now.stack) }
    {
        match wanted {
            None => Some(0),
            Some(wanted) => self.count_of(place, wanted),
        }
    }

    /// Another frame with so many of the topmost values of this one on top.
    fn put_on(
        &self,
        alloc: Global,
        below: TypeFrame,
        count: usize,
    ) -> Result<TypeFrame, OutOfMemory>
        requires { count ≤ length self.now.stack }
        ensures { IfOk result (λ frame. frame ≡ record { locals = below.locals; stack = take count self.now.stack ++ below.stack; unfinished = below.unfinished }) }
    {
        let mut frame = below;
        let mut place = count;
        while place > 0 {
            place -= 1;
            frame = frame.with_top(alloc, self.top(place))?;
        }
        Ok(frame)
    }

    /// The frame with one more value on the stack. `OutOfMemory` also where its words would not fit 32 bits.
    fn with_top(&self, alloc: Global, value: VerificationType) -> Result<Self, OutOfMemory>
        ensures { IfOk result (λ frame. frame ≡ record { locals = self.now.locals; stack = value ∷ self.now.stack; unfinished = self.now.unfinished }) }
    {
        let Some(words) = self.words.checked_add(value.words()) else {
            return Err(AllocError);
        };
        Ok(TypeFrame {
            locals: self.locals.share()?,
            stack: self.stack.push(alloc, value)?,
            words,
            unfinished: self.unfinished,
        })
    }
}

/// Whether a category that was found is the one that is wanted.
fn is_category(wanted: Category, found: Option<Category>) -> bool
    ensures { result ≡ is_category wanted found }
{
    match (wanted, found) {
        (Category::One, Some(Category::One)) | (Category::Two, Some(Category::Two)) => true,
        _ => false,
    }
}
