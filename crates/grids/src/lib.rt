//! Lemmas on the coordinates and the indices of row-major arrays, and on tiles, that every crate may cite. There is
//! no code here: coordinates, extents and lengths are lists of numbers, one for each dimension.
//! Definitions: `specs/Coordinates` (coordinates and indices), `specs/Ends` (what lies between the ends of a rectangle)
//! and `specs/Tiles` (tiles of one size that cover an array).
//! Stands on `lists`; used by `cells` and by every crate that speaks of cells.
#![tactic(auto)]
