// What a handler is given of a frame.
ghost use Rattle.std.specs.Prelude.{◌≡◌, [], ◌∷◌};
ghost use Rattle.cb_verify.specs.declared.verification_type.VerificationType.TheVariants.{Object};
ghost use Rattle.cb_verify.specs.Frames.{frame_goes_to};

use crate::{TypeFrame, VerificationType};
use cb_link::Program;

impl TypeFrame {
    /// Whether the frame with an object of a kind alone on the stack is assignable to another.
    pub(crate) fn caught_goes_to(&self, program: &Program, kind: u32, other: &TypeFrame) -> bool
        ensures { result ≡ frame_goes_to program.now (record { locals = self.now.locals; stack = Object kind ∷ []; unfinished = self.now.unfinished }) other.now }
    {
        self.locals_go_to(program, other)
            && other.takes_alone(program, VerificationType::Object(kind))
            && (!self.is_unfinished() || other.is_unfinished())
    }
}
