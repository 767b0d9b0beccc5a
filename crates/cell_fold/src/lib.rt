//! Folds of cells into records: of a list of cells, eight at a time, and of a region of an array. Nothing here takes
//! memory or touches the outside. A faster fold changes nothing in another crate.
//! Definitions: `specs/Lanes` (eight cells at a time).
//! Stands on `lists`, `grids` and `cells`; used by `plain_enum` and `chunk_store`.
#![tactic(auto)]

mod lanes;
mod region;
mod scalar;

pub use crate::lanes::fold_lanes;
pub use crate::region::region_record;
pub use crate::scalar::fold;
