// The frames of a program that is typed.
ghost use Rattle.std.specs.Prelude.{◌≡◌, option_copied};
ghost use Rattle.cb_verify.specs.Framed.{frame_in};

use crate::TypeFrame;
use crate::frame_table::FrameTable;
use cb_plain::List;
use std::marker::Model;

/// The frames before the instructions of a program's methods. Contracts see it as a list of them for each method, by its number, each
/// with its place.
#[derive(Drop)]
pub struct Typing {
    methods: List<FrameTable>,
}

impl Model for Typing {
    ghost use Rattle.std.specs.Prelude.{ℕ, List as Items};
    ghost use Rattle.cb_verify.specs.Frames.{Frame};

    ghost Value = { Items (Items (ℕ × Frame)) };

    ghost view = { λ typing. typing.methods };
}

impl Typing {
    /// The one with these frames of each method.
    pub(crate) fn of(methods: List<FrameTable>) -> Self
        ensures { result ≡ methods }
    {
        Typing { methods }
    }

    /// The frame before the instruction at a place of a method. None where no instruction stands there, or the method has no code or isn't
    /// one of the program: each instruction of a program that is typed has a frame before it (`verify`).
    pub fn frame(&self, method: u32, pc: u32) -> Option<&TypeFrame>
        ensures { option_copied result ≡ frame_in self.now method pc }
    {
        let frames = self.methods.as_slice().get(method as usize)?;
        frames.at(pc)
    }
}
