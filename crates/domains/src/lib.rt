//! Domains, boxes and points of up to 8 integer variables, and the halves and the strips of boxes. Nothing here
//! takes memory.
//!
//! Contracts see a box as the list of its domains and a point as the list of its values. `laws` says that halves
//! and strips share out the points of a box, and in which order.
//!
//! Definitions: `specs/Values` and `specs/Points` (the values of a domain, points and their order), `specs/VarBoxes`
//! (boxes), `specs/Splits` (halves and the measure), `specs/Strips`.
//!
//! It stands on `lists` alone. `query_model` uses it for the box of a query, `plain_enum` and `search_run` for its
//! points.
#![tactic(auto)]

mod dom;
pub mod laws;
mod point;
mod split;
mod strips;
mod var_box;
mod volume;
mod walk;

pub use crate::dom::Dom;
pub use crate::point::Point;
pub use crate::var_box::VarBox;
pub use crate::walk::Points;
