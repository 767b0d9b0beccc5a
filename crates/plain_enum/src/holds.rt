//! Whether a point is a solution. `list_plain` tests each point by this.
ghost use Rattle.std.specs.Prelude.{◌≡◌, ◌≤◌, ◌^◌, ℤ, List, length};
ghost use Rattle.std.specs.Ordering.{int_cmp};
ghost use Rattle.cells.specs.Cells.{array_of};
ghost use Rattle.lists.specs.Numbers.{product};
ghost use Rattle.cells.specs.Records.{record_of};
ghost use Rattle.query_model.specs.Constraint as constraint;
ghost use Rattle.query_model.specs.Constraint.{compares, is_solution};
ghost use Rattle.query_model.specs.Rules.{IsConstraint};

use cell_fold::region_record;
use cells::{Cell, Record, Shape, is_proper};
use domains::Point;
use query_model::{Agg, Compare, Constraint, Fraction, Query};
use std::cmp::Ordering;

/// Whether a comparison holds of two numbers, by their order.
fn holds_of(c: Compare, order: Ordering) -> bool
    ensures { (x y : ℤ) → order ≡ int_cmp x y → result ≡ compares c x y }
{
    match c {
        Compare::Le => order.is_le(),
        Compare::Lt => order.is_lt(),
        Compare::Ge => order.is_ge(),
        Compare::Gt => order.is_gt(),
        Compare::Eq => order.is_eq(),
    }
}

/// Whether the comparison of an aggregate with a fraction holds, by the record of the numbers. The numbers of a record
/// and of a fraction fit in 64 bits. The two sides of an average are at most 2^20 times 2^57 and 2^52 times 2^26, so
/// they are computed in 128 bits.
fn aggregate_compares(agg: Agg, c: Compare, r: &Record, to: &Fraction) -> bool
    ensures { (numbers : List ℤ) → r.now ≡ record_of numbers →
        result ≡ constraint.aggregate_compares agg c numbers to.now }
{
    let some = r.count > 0;
    match agg {
        Agg::Sum => holds_of(c, r.sum.cmp(&to.p)),
        Agg::Count => holds_of(c, i64::from(r.count).cmp(&to.p)),
        Agg::Min => some && holds_of(c, i64::from(r.least).cmp(&to.p)),
        Agg::Max => some && holds_of(c, i64::from(r.greatest).cmp(&to.p)),
        Agg::Avg => {
            let left = to.q as i128 * r.sum as i128;
            some && holds_of(c, left.cmp(&(to.p as i128 * r.count as i128)))
        }
    }
}

/// Whether a constraint of a query holds at a point.
fn holds(query: &Query, shape: &Shape, cells: &[Cell], p: &Point, c: &Constraint) -> bool
    requires cells { length cells.now ≡ product shape.now.extents }
    requires few { length cells.now ≤ 2 ^ 26 }
    requires vars { length p.now ≡ length query.now.variables }
    requires constraint { IsConstraint (length query.now.variables) (length query.now.regions) c.now }
    ensures { result ≡ constraint.holds (array_of query.now.rank shape.now.extents cells.now) query.now p.now c.now }
{
    match c {
        Constraint::Linear { expr, compare, to } => holds_of(*compare, expr.value(p).cmp(to)),
        Constraint::Aggregate {
            agg,
            region,
            compare,
            to,
        } => {
            let sides = query.regions()[*region as usize].sides(p);
            is_proper(shape, &sides)
                && aggregate_compares(*agg, *compare, &region_record(shape, cells, &sides), to)
        }
    }
}

/// Whether a point is a solution of a query on an array of the query's rank, with this shape and these cells in
/// row-major order. It is if every constraint holds at it.
pub fn holds_plain(query: &Query, shape: &Shape, cells: &[Cell], p: &Point) -> bool
    requires cells { length cells.now ≡ product shape.now.extents }
    requires few { length cells.now ≤ 2 ^ 26 }
    requires vars { length p.now ≡ length query.now.variables }
    ensures { result ≡ is_solution (array_of query.now.rank shape.now.extents cells.now) query.now p.now }
{
    for c in query.constraints() {
        if !holds(query, shape, cells, p, c) {
            return false;
        }
    }
    true
}
