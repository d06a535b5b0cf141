// Why a row is told no further.
use cb_frames::Deep;
use cb_heap::NoRoom;
use cb_rows::Trouble;
use std::alloc::AllocError;

/// Why a row is told no further.
#[derive(Clone, Copy, Debug, PartialEq, Eq)]
pub(crate) enum Stop {
    /// A frame was refused, or room was, or what a call asks for doesn't hold.
    Refused,
    /// No memory was to be had.
    OutOfMemory,
}

impl From<Deep> for Stop {
    fn from(_: Deep) -> Self {
        Stop::Refused
    }
}

impl From<NoRoom> for Stop {
    fn from(_: NoRoom) -> Self {
        Stop::Refused
    }
}

impl From<AllocError> for Stop {
    fn from(_: AllocError) -> Self {
        Stop::OutOfMemory
    }
}

impl From<Stop> for Trouble {
    fn from(stop: Stop) -> Self {
        match stop {
            Stop::Refused => Trouble::Refused,
            Stop::OutOfMemory => Trouble::OutOfMemory,
        }
    }
}
