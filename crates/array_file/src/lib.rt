//! The array file: a header of 96 bytes, and after it the chunks of cells.
//! It says exactly which files are refused and why, reads and writes headers, writes whole files, and says at which
//! offset each chunk begins. A fault comes only if the source or the sink counted one.
//!
//! Definitions: `specs/Header` (the header of a layout, the layout that a header states, and the first rule
//! that a file breaks), `specs/Stored` (the offsets of cells, and the array that a file holds), `specs/Written` (the
//! file of a layout and its cells) and `specs/Reads` (what `read_header` answers). `laws` says that headers and
//! whole files are read as they were written. Stands on `layouts`, `chunk_copies`, `cells` and `source_io`; `chunk_store` reads
//! the chunks, and `search_run` reads headers and writes files.
#![tactic(auto)]

mod header;
pub mod laws;
mod offsets;
mod refusal;
mod writing;

pub use crate::header::{HeaderFault, read_header, read_layout, write_layout};
pub use crate::offsets::{HEADER_BYTES, chunk_offset, file_size};
pub use crate::refusal::FileRefusal;
pub use crate::writing::write_array;
