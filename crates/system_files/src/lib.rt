//! The system's files and streams, as the sources, sinks and shelf of `source_io`.
//! This is the trusted edge: no clause says what a file of the system holds or what a stream took. The counts show
//! whether a read, a write or an opening failed, by the clauses of `source_io`. What the system does is what std's
//! clauses say of its calls. Reading ahead is proved for every open file that tells its bytes.
//!
//! There are no definitions here. It stands on `source_io`. The program `searchlight` runs on it.
#![tactic(auto)]

mod fault_count;
mod file_shelf;
mod file_source;
mod file_system;
mod one_write;
mod read_ahead;
mod reader;
mod tries;
mod writer_sink;

pub use crate::file_shelf::FileShelf;
pub use crate::file_source::FileSource;
pub use crate::file_system::{FileSystem, RuntimeFiles};
pub use crate::reader::{Reader, SystemFile};
pub use crate::writer_sink::WriterSink;
