// Which frame is the topmost one.

/// A frame that stands, as far as it says what runs.
#[derive(Clone, Copy, Debug, Drop, Eq, PartialEq)]
pub enum Frame {
    /// That of a method, at a place of its code.
    Running {
        /// The number of the method.
        method: u32,
        /// The place, from the beginning of the code.
        pc: u32,
    },
    /// That of a class that is being initialised, at a place of its initialisation.
    Initialising {
        /// The number of the class.
        class: u32,
        /// How much of the initialisation is done.
        place: u32,
    },
}
