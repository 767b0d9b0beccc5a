//! Chunks among the cells of an array: put in their places, and taken from there. Padding is never put, and is empty
//! when it is taken. Nothing here takes memory or touches the outside.
//! Definitions: `specs/Placing` (the cells of chunks among those of the array) and `specs/Boxes` (cells that are
//! copied).
//! Stands on `lists`, `grids`, `cells` and `layouts`; used by `array_file` to write and by `chunk_store` to read.
#![tactic(auto)]

mod boxes;
pub mod laws;
mod placing;
mod taking;

pub use crate::placing::place_chunk;
pub use crate::taking::take_chunk;
