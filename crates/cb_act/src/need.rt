// What has to be done in place of an instruction.

/// What a step does where an instruction alone can't: it asks for room, or for what lies outside the frame that runs.
#[derive(Clone, Copy, Debug, Drop, Eq, PartialEq)]
pub enum Need {
    /// An exception of the machine is thrown, of this site.
    Throws(u32),
    /// The exception of a division by zero is thrown, which has a message.
    ByZero,
    /// The initialisation of a class begins.
    Begins(u32),
    /// What the instruction makes is placed: an object, or arrays of sizes that aren't negative.
    Makes,
    /// A constant that is an object is loaded.
    Loads,
    /// The target of a switch is found.
    Switches,
    /// A native is performed, by its method's number.
    Performs(u32),
}
