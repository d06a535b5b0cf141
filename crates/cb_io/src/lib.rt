//! The outside of the machine: a folder of files, a source of bytes and a sink for bytes.
//!
//! Each is a trait with a written meaning, which an implementation may leave untold, and a count of faults. The traits promise that the count
//! never falls and rises exactly in the calls that fail, while it is below 2^64 - 1, and that files, bytes read and bytes taken are as the
//! meaning says. The `Mem..` objects keep everything in memory and fail at listed calls, the `Sure..` objects never fail, and `DirFolder`,
//! `StreamSource` and `StreamSink` lead to the real outside and tell nothing of content. The definitions are in `specs/` (`Faults`, `Folder`,
//! `Sink`, `System`, `Utf8`).
//!
//! Tests alone show what no clause can say: that `DirFolder` gives what stands outside, though one that always answers `Absent` is proved too,
//! and that a call doesn't give up for want of memory.
#![tactic(auto)]

mod calls;
mod dir_folder;
mod failed;
mod folder;
mod mem_folder;
mod mem_sink;
mod mem_source;
mod sink;
mod source;
mod stream_sink;
mod stream_source;
mod sure_folder;
mod sure_sink;
mod sure_source;
mod utf8;
mod whole_file;

pub use dir_folder::DirFolder;
pub use failed::Failed;
pub use folder::{Folder, FolderError, Found};
pub use mem_folder::MemFolder;
pub use mem_sink::MemSink;
pub use mem_source::MemSource;
pub use sink::{Sink, write_all};
pub use source::Source;
pub use stream_sink::StreamSink;
pub use stream_source::StreamSource;
pub use sure_folder::SureFolder;
pub use sure_sink::SureSink;
pub use sure_source::SureSource;
pub use utf8::{text_of, utf8_of};
