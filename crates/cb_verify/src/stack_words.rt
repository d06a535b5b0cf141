// Stacks that are compared word by word.
ghost use Rattle.std.specs.Prelude.{◌≡◌, ◌+◌, ◌≤◌, [], ◌∷◌, length, drop, IfSome, IsTrue};
ghost use Rattle.cb_verify.specs.Frames.{stack_goes_to};
ghost use Rattle.cb_verify.specs.InnerWords.{begins_with_top, taken_by, taken_by_long};

use crate::{TypeFrame, VerificationType};
use cb_link::Program;
use cb_shapes::Sort;

impl TypeFrame {
    /// Whether each word on the operand stack is assignable to that of another frame, which has as many (JVMS §4.10.1.4).
    pub(crate) fn stack_goes_to(&self, program: &Program, other: &TypeFrame) -> bool
        ensures { result ≡ stack_goes_to program.now self.now.stack other.now.stack }
    {
        let all = other.depth();
        let mut behind = 0;
        for place in 0..self.depth() {
            match other.takes(program, behind, self.top(place)) {
                Some(count) => behind += count,
                None => return false,
            }
        }
        behind == all
    }

    /// To how many of the values from a place on another value is assignable, word by word.
    #[tactic(auto, using(crate::proofs::StackWords::one_at, crate::proofs::StackWords::one_past))]
    fn takes(&self, program: &Program, place: usize, value: VerificationType) -> Option<usize>
        requires { place ≤ length self.now.stack }
        ensures taken { result ≡ taken_by program.now value (drop place self.now.stack) }
        ensures within { IfSome result (λ count. place + count ≤ length self.now.stack) }
    {
        if value.is_of(Sort::Long) {
            self.takes_long(place)
        } else if place < self.depth() && value.goes_to(program, self.top(place)) {
            Some(1)
        } else {
            None
        }
    }

    /// To how many of them a long is.
    #[tactic(auto, using(crate::proofs::StackWords::long_at, crate::proofs::StackWords::long_past))]
    fn takes_long(&self, place: usize) -> Option<usize>
        requires { place ≤ length self.now.stack }
        ensures taken { result ≡ taken_by_long (drop place self.now.stack) }
        ensures within { IfSome result (λ count. place + count ≤ length self.now.stack) }
    {
        if place >= self.depth() {
            return None;
        }
        let top = self.top(place);
        if top.is_of(Sort::Long) {
            Some(1)
        } else if top.is_top() && self.has_top(place + 1) {
            Some(2)
        } else {
            None
        }
    }

    /// Whether there is a value at a place, and nothing is known of it.
    #[tactic(auto, using(crate::proofs::StackWords::top_at, crate::proofs::StackWords::top_past))]
    fn has_top(&self, place: usize) -> bool
        ensures top { result ≡ begins_with_top (drop place self.now.stack) }
        ensures within { IsTrue result → place + 1 ≤ length self.now.stack }
    {
        place < self.depth() && self.top(place).is_top()
    }

    /// Whether a value alone is assignable to the stack, word by word.
    pub(crate) fn takes_alone(&self, program: &Program, value: VerificationType) -> bool
        ensures { result ≡ stack_goes_to program.now (value ∷ []) self.now.stack }
    {
        match self.takes(program, 0, value) {
            Some(count) => count == self.depth(),
            None => false,
        }
    }
}
