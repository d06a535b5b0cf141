// Where a frame lies.
ghost use Rattle.std.specs.Prelude.{◌≡◌};

/// Whose frame it is.
#[derive(Clone, Copy, Debug, Drop, Eq, PartialEq)]
pub(crate) enum What {
    Method,
    Class,
}

/// Where a frame lies among the slots: its local variables from `base` to `floor`, its stack from there to `next`, the topmost value last,
/// and free slots from there to `end`.
#[derive(Clone, Copy, Debug, Drop, Eq, PartialEq)]
pub(crate) struct Standing {
    pub(crate) what: What,
    /// The number of the method or of the class.
    pub(crate) number: u32,
    pub(crate) place: u32,
    pub(crate) base: usize,
    pub(crate) floor: usize,
    pub(crate) next: usize,
    pub(crate) end: usize,
}

impl Standing {
    /// What lies below the lowest frame.
    #[inline(always)]
    pub(crate) const fn bottom() -> Standing
        ensures next { result.next ≡ 0 }
        ensures end { result.end ≡ 0 }
    {
        Standing {
            what: What::Class,
            number: 0,
            place: 0,
            base: 0,
            floor: 0,
            next: 0,
            end: 0,
        }
    }
}
