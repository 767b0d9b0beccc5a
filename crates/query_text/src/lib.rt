//! Queries as JSON text. `read_query` gives the query that the bytes of a file stand for, or exactly the first
//! refusal of a walk over it, with the location in the query, or says that memory ran out.
//! Definitions: `specs/Walk` (the walk, step by step), `specs/Form` (which JSON value stands for which query),
//! `specs/Locations` (where a refusal is), `specs/Reads` (what reading may answer). The laws in `src/laws.rt`
//! connect the walk and the form.
//! It stands on `query_model` (what a query is) and `serde_json` (what JSON is). `search_run` uses it.
#![tactic(auto)]

mod constraint;
mod expression;
mod fault;
mod json_array;
mod keys;
pub mod laws;
mod location;
mod lookup;
mod number;
mod part_items;
mod points;
mod read;
mod refusal;
mod region;
mod sum;
mod text;
mod variable;

pub use crate::fault::QueryFault;
pub use crate::location::{Field, Location, Part};
pub use crate::read::{check_size, read_query};
pub use crate::refusal::QueryRefusal;
