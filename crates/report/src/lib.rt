//! What a command prints: the lines of solutions, the lines of `info`, and for each ending the exit status and the line
//! on the error stream.
//!
//! Definitions: `specs/Status` (the status and the message of an ending) and `specs/InfoText` (what `info` prints).
//! The lines of solutions are those of `query_model::specs::Text`.
//! It stands on the crates whose refusals it prints. `search_run` and the program `searchlight` use it.
#![tactic(auto)]

mod ending;
mod endings;
mod info;
mod line;
mod refusals;
mod solutions;

pub use crate::ending::{Ending, Failure, Refusal};
pub use crate::endings::report_ending;
pub use crate::info::print_info;
pub use crate::line::Line;
pub use crate::solutions::print_solutions;
