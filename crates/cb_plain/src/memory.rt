// Want of memory, the one answer that no clause ties to a cause.
use std::alloc::AllocError;

/// No memory was to be had. It is std's error, under the name that it has in every error type of the machine.
pub type OutOfMemory = AllocError;
