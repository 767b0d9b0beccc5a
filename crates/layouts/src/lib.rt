//! Layouts: how an array is divided into chunks and blocks. It says exactly which numbers make a layout, which rule
//! refuses others, and where each chunk and block lies.
//! Definitions: `specs/Chunks` (the chunks and blocks of a layout), `specs/Cuts` (chunks that are cut to the array) and
//! `specs/Rules` (the rules of a layout, in their order).
//! Stands on `lists`, `grids` and `cells`; used by `chunk_copies`, `array_file`, `array_text`, `chunk_store` and
//! `search_run`.
#![tactic(auto)]

mod cut;
pub mod laws;
mod layout;
mod lengths;
mod numbers;
mod refusal;
mod tiles;

pub use crate::cut::Cut;
pub use crate::layout::{Layout, MOST_CELLS, MOST_CHUNK_CELLS};
pub use crate::numbers::LayoutNumbers;
pub use crate::refusal::LayoutRefusal;
