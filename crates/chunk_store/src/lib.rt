//! Chunks in memory: frames, loading a chunk of an array file into one, all cells of a file, and their record.
//! A loaded frame has the cells of its chunk, as the told bytes have them. After a load that fails, it holds no chunk.
//! Loading takes no memory. It asks only for the bytes of the one chunk, in pieces whose offsets rise.
//! Definitions: `specs/Frames` (what a frame shows), `specs/Loaded` (the cells of a chunk of a file),
//! `specs/FirstChunks` (the cells of one chunk after the other), `specs/Summaries` (the record of all cells) and
//! `specs/Pieces` (the reads that a load makes). `laws` says that loads one after the other read in order, and that
//! the records of all chunks make the record of the array.
//! Stands on `array_file`, `chunk_copies`, `cell_fold`, `layouts`, `cells` and `source_io`; used by `search_run`.
#![tactic(auto)]

mod array;
mod frame;
pub mod laws;
mod loading;
mod record;
mod summary;

pub use crate::array::{CellsFault, read_cells};
pub use crate::frame::Frame;
pub use crate::loading::load;
pub use crate::record::{chunk_record, shared_record};
pub use crate::summary::array_record;
