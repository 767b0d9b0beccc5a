//! The number of points of a query. `read` tests it against the limit.
ghost use Rattle.std.specs.Prelude.{◌≡◌, ◌-◌, ◌^◌, min};
ghost use Rattle.query_text.specs.Walk as walk;

use query_model::Variable;

/// The product of the sizes of the domains, or 2^64 - 1 if it is more.
pub fn point_count(variables: &[Variable]) -> u64
    ensures { result ≡ min (walk.point_count variables.now) (2 ^ 64 - 1) }
{
    let mut points = 1u64;
    for variable in variables {
        points = points.saturating_mul(variable.domain().count());
    }
    points
}
