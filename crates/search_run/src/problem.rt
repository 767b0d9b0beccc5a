//! A query with its array: what is searched for, and where.
ghost use Rattle.std.specs.Prelude.{◌≡◌, ◌≤◌, ◌^◌, length};
ghost use Rattle.lists.specs.Numbers.{product};

use cells::{Cell, Shape};
use query_model::Query;

/// A query and the array on which it is solved.
#[derive(Drop)]
pub struct Problem {
    /// The conditions that a solution meets.
    pub query: Query,
    /// The extents of the array, in cells.
    pub shape: Shape,
    /// The cells of the array, in row-major order.
    pub cells: Vec<Cell>,
    ghost all: { length cells.items ≡ product shape.extents },
    ghost few: { length cells.items ≤ 2 ^ 26 },
}
