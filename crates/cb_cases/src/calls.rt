// What the calls of the objects do.
use crate::number::count_of;
use crate::trouble::Trouble;
use cb_plain::Numbers;
use std::alloc::Global;
use std::mem;
use std::num::NonZeroUsize;

/// What the calls of a stream do.
#[derive(Drop)]
pub(crate) struct StreamCalls {
    /// The calls that fail, by their numbers, counted from 1.
    pub failing: Numbers,
    /// How many bytes a call moves at most.
    pub most: NonZeroUsize,
}

impl StreamCalls {
    /// No call fails, and each moves so many bytes.
    fn new(alloc: Global, most: NonZeroUsize) -> Self {
        StreamCalls {
            failing: Numbers::new(alloc),
            most,
        }
    }

    /// Takes the calls that fail. From then on none does.
    pub fn take_failing(&mut self, alloc: Global) -> Numbers {
        mem::replace(&mut self.failing, Numbers::new(alloc))
    }
}

/// What the calls of all objects do.
#[derive(Drop)]
pub(crate) struct Calls {
    /// The calls of the folder that fail.
    pub folder: Numbers,
    /// Calls of the input.
    pub input: StreamCalls,
    /// Calls of the output.
    pub out: StreamCalls,
    /// Calls of the error output.
    pub err: StreamCalls,
}

impl Calls {
    /// No call fails, and each moves one byte.
    pub fn new(alloc: Global) -> Self {
        Calls {
            folder: Numbers::new(alloc),
            input: StreamCalls::new(alloc, NonZeroUsize::MIN),
            out: StreamCalls::new(alloc, NonZeroUsize::MIN),
            err: StreamCalls::new(alloc, NonZeroUsize::MIN),
        }
    }

    /// Does what a line says of the calls of an object.
    pub fn set(&mut self, object: &str, rest: &str) -> Result<(), Trouble> {
        let Some((verb, numbers)) = rest.split_once(' ') else {
            return Err(Trouble::NotUnderstood);
        };
        match (object, verb) {
            ("folder", "fails") => add_numbers(&mut self.folder, numbers),
            ("input", "fails") => add_numbers(&mut self.input.failing, numbers),
            ("out", "fails") => add_numbers(&mut self.out.failing, numbers),
            ("err", "fails") => add_numbers(&mut self.err.failing, numbers),
            ("input", "gives") => set_most(&mut self.input, numbers),
            ("out", "takes") => set_most(&mut self.out, numbers),
            ("err", "takes") => set_most(&mut self.err, numbers),
            _ => Err(Trouble::NotUnderstood),
        }
    }
}

/// Adds the numbers of a line.
fn add_numbers(failing: &mut Numbers, numbers: &str) -> Result<(), Trouble> {
    for number in numbers.split(' ') {
        let number = number.parse::<u32>().map_err(|_| Trouble::NotUnderstood)?;
        failing.push(number)?;
    }
    Ok(())
}

/// Sets how many bytes a call moves.
fn set_most(calls: &mut StreamCalls, number: &str) -> Result<(), Trouble> {
    calls.most = count_of(number)?;
    Ok(())
}
