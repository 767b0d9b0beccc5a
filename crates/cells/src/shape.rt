//! Shapes of arrays.
//! Used in this crate by `region`, and by `layouts`, `cell_fold`, `plain_enum` and `search_run`.
ghost use Rattle.std.specs.Prelude.{◌≡◌, ◌<◌, ◌≤◌, ◌^◌, true};
ghost use Rattle.grids.specs.Coordinates.{index_of, in_bounds};
ghost use Rattle.lists.specs.Numbers.{product};

/// How many cells an array has in each of three dimensions, the last of them fastest; 1 in a dimension
/// that it does not use.
#[derive(Clone, Copy, Debug, PartialEq, Eq)]
pub struct Shape {
    /// The extent of each dimension, in cells.
    pub extents: [u32; 3],
}

impl Shape {
    /// The row-major index of the cell with these coordinates, the last dimension fastest.
    pub fn index_of(&self, at: [u32; 3]) -> u64
        requires in_bounds { in_bounds self.now.extents at ≡ true }
        requires few { product self.now.extents ≤ 2 ^ 64 }
        ensures index { result ≡ index_of self.now.extents at }
        ensures below { result < product self.now.extents }
    {
        let [_, n_2, n_3] = self.extents;
        let [c, c_2, c_3] = at;
        (u64::from(c) * u64::from(n_2) + u64::from(c_2)) * u64::from(n_3) + u64::from(c_3)
    }
}
