//! The slow way: whether a point is a solution, and all solutions, by plain enumeration. There is no index, no table
//! and no pruning here. Everything faster is compared with this.
//!
//! Definitions: there are none here. The definitions of `query_model` are used: `specs/Constraint` (when a point is a
//! solution) and `specs/Answer` (the solutions, in order).
//!
//! It stands on `query_model`, `domains`, `cell_fold`, `cells` and `lists`. `search_run` uses it.
#![tactic(auto)]

mod holds;
mod list;

pub use crate::holds::holds_plain;
pub use crate::list::list_plain;
