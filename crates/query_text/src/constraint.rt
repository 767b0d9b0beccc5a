//! Reads the constraints of a query. `read` uses it. `at` is the location that a refusal names.
ghost use Rattle.std.specs.Prelude.{◌≡◌, ◌≤◌, ◌<◌, ◌^◌, length, map, option_map, All, IfOk};
ghost use Rattle.query_model.specs.declared.parts.Agg.{Agg};
ghost use Rattle.query_model.specs.Rules.{IsFraction, IsWhole, IsConstraint};
ghost use Rattle.serde_json.specs.View.{view};
ghost use Rattle.query_text.specs.Reads.{Gives};
ghost use Rattle.query_text.specs.Walk as walk;

use crate::expression::read_expr;
use crate::json_array::{items_in, numbers_of};
use crate::keys::read_object;
use crate::lookup::{agg_named, compare_named, region_named};
use crate::number::{read_number, read_whole, whole_between};
use crate::text::read_text;
use crate::{Field, Location, Part, QueryFault, QueryRefusal};
use query_model::{Agg, Compare, Constraint, Fraction, Region, Variable};
use serde_json::Value;
use std::alloc::Global;

/// 2^52, the largest absolute value that an aggregate is compared with.
const MOST_AGGREGATE: u64 = 4503599627370496;

/// 2^31, the largest absolute value that an expression is compared with.
const MOST_LINEAR: u64 = 2147483648;

/// 2^20, the largest q of a fraction p / q.
const MOST_DENOMINATOR: i64 = 1048576;

fn read_agg(value: &Value, at: Location) -> Result<Agg, QueryRefusal>
    ensures { result ≡ walk.walk_agg at (view value.now) }
{
    let text = read_text(Some(value), at)?;
    match agg_named(text) {
        Some(agg) => Ok(agg),
        None => Err(QueryRefusal::Name { location: at }),
    }
}

/// The index, from 0, of the region that a member names.
fn read_region_name(
    regions: &[Region],
    at: Location,
    found: Option<&Value>,
) -> Result<u8, QueryRefusal>
    requires { length regions.now ≤ 16 }
    ensures walk { result ≡ walk.walk_region_name regions.now at (option_map (λ v. view v.now) found.entry) }
    ensures among { IfOk result (λ r. r < length regions.now) }
{
    let text = read_text(found, at)?;
    match region_named(text, regions) {
        Some(region) => Ok(region as u8),
        None => Err(QueryRefusal::Unbound { location: at }),
    }
}

fn read_compare(found: Option<&Value>, at: Location) -> Result<Compare, QueryRefusal>
    ensures { result ≡ walk.walk_compare at (option_map (λ v. view v.now) found.entry) }
{
    let text = read_text(found, at)?;
    match compare_named(text) {
        Some(compare) => Ok(compare),
        None => Err(QueryRefusal::Name { location: at }),
    }
}

/// The items of a list `[p, q]` as the fraction p / q.
#[tactic(auto, unfolding(crate::specs::Walk::walk_pair))]
fn read_pair(items: &[Value], at: Location) -> Result<Fraction, QueryRefusal>
    ensures walk { result ≡ walk.walk_pair at (map view items.now) }
    ensures rules { IfOk result (IsFraction (IsWhole Agg.Avg)) }
{
    let Some((upper, lower)) = numbers_of(items) else {
        return Err(QueryRefusal::Shape { location: at });
    };
    let p = read_whole(upper, MOST_AGGREGATE, at)?;
    match whole_between(1, MOST_DENOMINATOR, lower) {
        Some(q) => Ok(Fraction { p, q }),
        None => Err(QueryRefusal::Number { location: at }),
    }
}

/// A whole number p as the fraction p / 1.
fn read_whole_fraction(found: Option<&Value>, at: Location) -> Result<Fraction, QueryRefusal>
    ensures walk { result ≡ walk.walk_whole_fraction at (option_map (λ v. view v.now) found.entry) }
    ensures rules { (agg : Agg) → IfOk result (IsFraction (IsWhole agg)) }
{
    let p = read_number(found, MOST_AGGREGATE, at)?;
    Ok(Fraction { p, q: 1 })
}

/// What an average is compared with: a whole number or a list `[p, q]`.
fn read_average(found: Option<&Value>, at: Location) -> Result<Fraction, QueryRefusal>
    ensures walk { result ≡ walk.walk_average at (option_map (λ v. view v.now) found.entry) }
    ensures rules { IfOk result (IsFraction (IsWhole Agg.Avg)) }
{
    if let Some(value) = found
        && let Some(items) = items_in(value)
    {
        return read_pair(items, at);
    }
    read_whole_fraction(found, at)
}

#[tactic(auto, unfolding(crate::specs::Walk::walk_fraction))]
fn read_fraction(agg: Agg, found: Option<&Value>, at: Location) -> Result<Fraction, QueryRefusal>
    ensures walk { result ≡ walk.walk_fraction agg at (option_map (λ v. view v.now) found.entry) }
    ensures rules { IfOk result (IsFraction (IsWhole agg)) }
{
    match agg {
        Agg::Avg => read_average(found, at),
        Agg::Sum | Agg::Min | Agg::Max | Agg::Count => read_whole_fraction(found, at),
    }
}

/// The i-th constraint, from 1, which has the member `agg`.
#[tactic(auto, unfolding(crate::specs::Walk::walk_aggregate))]
fn read_aggregate(
    variables: &[Variable],
    regions: &[Region],
    i: u32,
    agg: &Value,
    value: &Value,
) -> Result<Constraint, QueryRefusal>
    requires { length regions.now ≤ 16 }
    ensures walk { result ≡ walk.walk_aggregate regions.now i (view agg.now) (view value.now) }
    ensures rules { IfOk result (IsConstraint (length variables.now) (length regions.now)) }
{
    if value.get("expr").is_some() {
        return Err(QueryRefusal::Shape {
            location: Location::field(Field::ConstraintExpr, i),
        });
    }
    let agg = read_agg(agg, Location::field(Field::ConstraintAgg, i))?;
    let of_at = Location::field(Field::ConstraintOf, i);
    let to_at = Location::field(Field::ConstraintTo, i);
    let region = read_region_name(regions, of_at, value.get("of"))?;
    let compare = read_compare(value.get("cmp"), Location::field(Field::ConstraintCmp, i))?;
    let to = read_fraction(agg, value.get("to"), to_at)?;
    Ok(Constraint::Aggregate {
        agg,
        region,
        compare,
        to,
    })
}

/// The i-th constraint, from 1, which has no member `agg`.
#[tactic(auto, unfolding(crate::specs::Walk::walk_linear))]
fn read_linear(
    variables: &[Variable],
    regions: &[Region],
    i: u32,
    value: &Value,
) -> Result<Constraint, QueryRefusal>
    requires { length variables.now ≤ 8 }
    ensures walk { result ≡ walk.walk_linear variables.now i (view value.now) }
    ensures rules { IfOk result (IsConstraint (length variables.now) (length regions.now)) }
{
    if value.get("of").is_some() {
        return Err(QueryRefusal::Shape {
            location: Location::field(Field::ConstraintOf, i),
        });
    }
    let Some(found) = value.get("expr") else {
        return Err(QueryRefusal::Shape {
            location: Location::field(Field::ConstraintExpr, i),
        });
    };
    let expr = read_expr(variables, found, Location::field(Field::ConstraintExpr, i))?;
    let compare = read_compare(value.get("cmp"), Location::field(Field::ConstraintCmp, i))?;
    let to_at = Location::field(Field::ConstraintTo, i);
    let to = read_number(value.get("to"), MOST_LINEAR, to_at)?;
    Ok(Constraint::Linear { expr, compare, to })
}

/// The i-th constraint, from 1.
#[tactic(auto, unfolding(crate::specs::Walk::walk_constraint))]
fn read_constraint(
    variables: &[Variable],
    regions: &[Region],
    i: u32,
    value: &Value,
) -> Result<Constraint, QueryRefusal>
    requires variables { length variables.now ≤ 8 }
    requires regions { length regions.now ≤ 16 }
    ensures walk { result ≡ walk.walk_constraint variables.now regions.now i (view value.now) }
    ensures rules { IfOk result (IsConstraint (length variables.now) (length regions.now)) }
{
    read_object(
        value,
        &["agg", "of", "expr", "cmp", "to"],
        Location::item(Part::Constraints, i),
    )?;
    match value.get("agg") {
        Some(agg) => read_aggregate(variables, regions, i, agg, value),
        None => read_linear(variables, regions, i, value),
    }
}

/// The constraints of these items, over the variables and the regions.
pub fn read_constraints(
    alloc: Global,
    variables: &[Variable],
    regions: &[Region],
    items: &[Value],
) -> Result<Vec<Constraint>, QueryFault>
    requires variables { length variables.now ≤ 8 }
    requires regions { length regions.now ≤ 16 }
    requires items { length items.now ≤ 64 }
    ensures walk { Gives (λ v. v.items)
        (walk.walk_constraints variables.now regions.now (map view items.now)) result }
    ensures count { IfOk result (λ v. length v.items ≡ length items.now) }
    ensures rules { IfOk result
        (λ v. All (IsConstraint (length variables.now) (length regions.now)) v.items) }
{
    let mut constraints = Vec::new(alloc);
    for item in items {
        let i = constraints.len() as u32 + 1;
        let constraint = read_constraint(variables, regions, i, item)?;
        constraints.push(constraint)?;
    }
    Ok(constraints)
}
