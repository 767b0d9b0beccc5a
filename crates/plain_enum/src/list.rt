//! All solutions, by a test of each point of the box. `search_run` prints them.
ghost use Rattle.std.specs.Prelude.{◌≡◌, ◌≤◌, ◌^◌, length, All, IfOk};
ghost use Rattle.cells.specs.Cells.{array_of};
ghost use Rattle.lists.specs.Numbers.{product};
ghost use Rattle.query_model.specs.Answer.{answer};

use crate::holds_plain;
use cells::{Cell, Shape};
use domains::Point;
use query_model::Query;
use std::alloc::{AllocError, Global};

/// The solutions of a query on an array of the query's rank, with this shape and these cells in row-major
/// order, in lexicographic order. Its only error is out of memory.
pub fn list_plain(
    alloc: Global,
    query: &Query,
    shape: &Shape,
    cells: &[Cell],
) -> Result<Vec<Point>, AllocError>
    requires cells { length cells.now ≡ product shape.now.extents }
    requires few { length cells.now ≤ 2 ^ 26 }
    ensures answer { IfOk result (λ points.
        points.items ≡ answer (array_of query.now.rank shape.now.extents cells.now) query.now) }
    ensures vars { IfOk result (λ points. All (λ p. length p ≡ length query.now.variables) points.items) }
{
    let mut points = Vec::new(alloc);
    for p in query.root().points() {
        if holds_plain(query, shape, cells, &p) {
            points.push(p)?;
        }
    }
    Ok(points)
}
