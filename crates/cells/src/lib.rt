//! Cells and statements about them: shapes of arrays, regions and their sides, rectangles, and records of numbers.
//! Nothing here takes memory or touches the outside.
//! Definitions: `specs/Array` (an array, a region's places and present cells), `specs/Cells` (stored cells),
//! `specs/Records` (records of numbers) and `specs/Rects` (rectangles). Counts, sums and extremes are defined in
//! `lists`, coordinates and indices in `grids`.
//! Stands on `lists` and `grids`; every crate that speaks of cells stands on it.
#![tactic(auto)]

mod cell;
pub mod laws;
mod record;
mod rect;
mod region;
mod shape;
mod side;

pub use crate::cell::{Cell, EMPTY};
pub use crate::record::{NOTHING, Record, merge};
pub use crate::rect::Rect;
pub use crate::region::{is_proper, rect_of};
pub use crate::shape::Shape;
pub use crate::side::Side;
