// Frames in full, by names.
use crate::Label;
use cb_plain::List;
use cb_text::Units;

/// A type in a frame (JVMS §4.7.4). That of an object that isn't initialised yet has the place of its `new`.
#[derive(Debug, Drop)]
pub enum FrameType<Place> {
    /// A local that may not be used.
    Top,
    /// `int`
    Int,
    /// `long`
    Long,
    /// The type of `null`.
    Null,
    /// `this` in a constructor, before the call of another.
    This,
    /// A class or array, by its name.
    Object(Units),
    /// What the `new` at a place has made.
    New(Place),
}

/// A frame in full.
#[derive(Debug, Drop)]
pub struct Frame<Place> {
    /// Where it stands.
    pub place: Place,
    /// The types of the locals.
    pub locals: List<FrameType<Place>>,
    /// The types on the operand stack.
    pub stack: List<FrameType<Place>>,
}

/// A frame of a method. That of a listing may be bad, and then stands in no program.
#[derive(Debug, Drop)]
pub enum FrameLine {
    /// A frame in full, at a label.
    Full(Frame<Label>),
    /// One that can't be told in full.
    Bad,
}
