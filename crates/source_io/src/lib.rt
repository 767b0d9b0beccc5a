//! The outside as traits: sources of bytes, sinks that take bytes, and a shelf of named files.
//! What an object outside holds is told or not. That it failed shows in a count that never falls.
//! Every proof above this crate rests on the clauses of these traits alone.
//! In memory there are sources, sinks and a shelf that tell everything and fail by plan.
//!
//! Definitions: `specs/Source` and `specs/Shelf` (what one shows), `specs/Told` (contents), `specs/Asked` (reads),
//! `specs/Written` (writes), `specs/Files`, and for the objects in memory `specs/Plan`, `specs/MemSource`,
//! `specs/MemSink` and `specs/MemShelf`. It stands on `lists`.
//! `system_files` has the real files and streams. `array_file`, `chunk_store` and `search_run` read and write
//! through the traits, and the tests use the objects in memory.
#![tactic(auto)]

mod fault;
mod mem_shelf;
mod mem_sink;
mod mem_source;
mod plan;
mod shelf;
mod sink;
mod source;
mod sure_source;

pub use crate::fault::{Failed, NoMemory, OpenFault};
pub use crate::mem_shelf::MemShelf;
pub use crate::mem_sink::MemSink;
pub use crate::mem_source::MemSource;
pub use crate::plan::Plan;
pub use crate::shelf::Shelf;
pub use crate::sink::{Sink, write_whole};
pub use crate::source::{ByteSource, read_whole};
pub use crate::sure_source::SureSource;
