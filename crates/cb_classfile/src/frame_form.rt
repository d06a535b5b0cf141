// The forms of frames (JVMS §4.7.4).
ghost use Rattle.std.specs.Prelude.{◌≡◌};
ghost use Rattle.cb_classfile.specs.FrameMap.{form_of_frame};

/// What stands behind the kind of a frame (JVMS §4.7.4).
#[derive(Clone, Copy, Debug, PartialEq, Eq)]
pub enum FrameForm {
    /// Nothing: the locals are those of the frame before, and the stack is empty.
    Same,
    /// One stack item.
    SameOneItem,
    /// No frame has this kind.
    Reserved,
    /// A delta and one stack item.
    SameOneItemExtended,
    /// A delta. The kind says how many locals go.
    Chop,
    /// A delta.
    SameExtended,
    /// A delta and as many locals as the kind says.
    Append,
    /// A delta, all locals and the whole stack.
    Full,
}

/// The form of a frame of this kind.
pub fn form_of_frame(kind: u8) -> FrameForm
    ensures { result ≡ form_of_frame kind }
{
    match kind {
        0..=63 => FrameForm::Same,
        64..=127 => FrameForm::SameOneItem,
        128..=246 => FrameForm::Reserved,
        247 => FrameForm::SameOneItemExtended,
        248..=250 => FrameForm::Chop,
        251 => FrameForm::SameExtended,
        252..=254 => FrameForm::Append,
        255 => FrameForm::Full,
    }
}
