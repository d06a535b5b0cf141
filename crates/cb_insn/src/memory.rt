// Want of memory, the one answer that no clause ties to a cause.
use std::alloc::AllocError;

/// No memory was to be had.
pub type OutOfMemory = AllocError;
