//! Sides of regions.
//! Used in this crate by `region`, and by `cell_fold`, `query_model` and `chunk_store`.

/// One side of a region: the coordinates from `from` up to but not including `to`. They may lie outside the array, and
/// there may be none.
#[derive(Clone, Copy, Debug, PartialEq, Eq)]
pub struct Side {
    /// The first coordinate.
    pub from: i64,
    /// The coordinate past the last one.
    pub to: i64,
}
