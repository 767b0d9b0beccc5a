//! Reads the regions of a query. `read` uses it. `at` is the location that a refusal names.
ghost use Rattle.std.specs.Prelude.{◌≡◌, ◌≢◌, ◌≤◌, ◌<◌, ◌-◌, length, map, drop, replicate, pos, option_map, is_some, All, IfOk};
ghost use Rattle.query_model.specs.NameForm.{IsName};
ghost use Rattle.query_model.specs.Rules.{IsExpr, IsRegion, constant_expr};
ghost use Rattle.query_model.specs.declared.parts.Region.{Region};
ghost use Rattle.serde_json.specs.View.{view};
ghost use Rattle.query_text.specs.Lists.{AreRegions};
ghost use Rattle.query_text.specs.Lookup as lookup;
ghost use Rattle.query_text.specs.Reads.{Gives};
ghost use Rattle.query_text.specs.Walk as walk;

use crate::expression::read_expr;
use crate::json_array::items_in;
use crate::keys::read_object;
use crate::lookup::region_named;
use crate::sum::constant;
use crate::text::read_name;
use crate::{Field, Location, Part, QueryFault, QueryRefusal};
use query_model::{Expr, Name, Region, Variable};
use serde_json::Value;
use std::alloc::Global;

/// The expressions of these items, and the constant `rest` in each further dimension.
fn read_each_dimension(
    variables: &[Variable],
    items: &[Value],
    at: Location,
    rest: u8,
) -> Result<[Expr; 3], QueryRefusal>
    requires variables { length variables.now ≤ 8 }
    requires items { length items.now ≤ 3 }
    requires rest { rest ≤ 1 }
    ensures walk { result ≡ walk.then_padded (length items.now) rest
        (walk.walk_each (walk.walk_dimension variables.now at) (map view items.now)) }
    ensures rules { IfOk result (All (IsExpr (length variables.now))) }
    ensures rest { IfOk result (λ exprs.
        drop (length items.now) exprs ≡ replicate (3 - length items.now) (constant_expr (pos rest))) }
{
    let mut exprs = [constant(rest as i64); 3];
    for d in 0..items.len() {
        exprs[d] = read_expr(variables, &items[d], at.dimension(d as u32 + 1))?;
    }
    Ok(exprs)
}

/// The expressions of a member, one for each dimension of the array, and the constant `rest` in each further
/// dimension. `region` is the number of the region, from 1.
#[tactic(auto, unfolding(crate::specs::Walk::walk_dimensions))]
fn read_dimensions(
    rank: u8,
    variables: &[Variable],
    region: u32,
    at: Location,
    found: Option<&Value>,
    rest: u8,
) -> Result<[Expr; 3], QueryRefusal>
    requires variables { length variables.now ≤ 8 }
    requires rank { rank ≤ 3 }
    requires rest { rest ≤ 1 }
    ensures walk { result ≡ walk.then_padded rank rest
        (walk.walk_dimensions rank variables.now region at (option_map (λ v. view v.now) found.entry)) }
    ensures rules { IfOk result (All (IsExpr (length variables.now))) }
    ensures rest { IfOk result (λ exprs.
        drop rank exprs ≡ replicate (3 - rank) (constant_expr (pos rest))) }
{
    let Some(value) = found else {
        return Err(QueryRefusal::Shape { location: at });
    };
    let Some(items) = items_in(value) else {
        return Err(QueryRefusal::Shape { location: at });
    };
    if items.len() != rank as usize {
        return Err(QueryRefusal::Dimensions {
            region,
            found: items.len() as u64,
        });
    }
    read_each_dimension(variables, items, at, rest)
}

/// The name of a member. If an earlier region has it, the refusal is `Repeated`.
fn read_new_name(
    before: &[Region],
    found: Option<&Value>,
    at: Location,
) -> Result<Name, QueryRefusal>
    ensures walk { result ≡ walk.walk_new_name (λ text. is_some (lookup.region_named text before.now))
        at (option_map (λ v. view v.now) found.entry) }
    ensures form { IfOk result IsName }
    ensures new { IfOk result (λ name. All (λ (r : Region). r.name ≢ name) before.now) }
{
    let text = read_name(found, at)?;
    match region_named(text, before) {
        Some(_) => Err(QueryRefusal::Repeated { location: at }),
        None => Ok(Name::from_bytes(text.as_bytes())),
    }
}

/// The region that comes after these.
#[tactic(auto, unfolding(crate::specs::Walk::walk_region))]
fn read_region(
    rank: u8,
    variables: &[Variable],
    before: &[Region],
    value: &Value,
) -> Result<Region, QueryRefusal>
    requires variables { length variables.now ≤ 8 }
    requires rank { rank ≤ 3 }
    requires before { length before.now < 16 }
    ensures walk { result ≡ walk.walk_region rank variables.now before.now (view value.now) }
    ensures rules { IfOk result (IsRegion rank (length variables.now)) }
    ensures new { IfOk result (λ r. All (λ (s : Region). s.name ≢ r.name) before.now) }
{
    let i = before.len() as u32 + 1;
    let item_at = Location::item(Part::Regions, i);
    read_object(value, &["name", "at", "length"], item_at)?;
    let name_at = Location::field(Field::RegionName, i);
    let name = read_new_name(before, value.get("name"), name_at)?;
    let at = read_dimensions(
        rank,
        variables,
        i,
        Location::field(Field::RegionAt, i),
        value.get("at"),
        0,
    )?;
    let length_at = Location::field(Field::RegionLength, i);
    let length = read_dimensions(rank, variables, i, length_at, value.get("length"), 1)?;
    Ok(Region { name, at, length })
}

/// The regions of these items, for arrays of this rank and over the variables.
pub fn read_regions(
    alloc: Global,
    rank: u8,
    variables: &[Variable],
    items: &[Value],
) -> Result<Vec<Region>, QueryFault>
    requires variables { length variables.now ≤ 8 }
    requires rank { rank ≤ 3 }
    requires items { length items.now ≤ 16 }
    ensures walk { Gives (λ v. v.items)
        (walk.walk_each (walk.walk_region rank variables.now) (map view items.now)) result }
    ensures rules { IfOk result (λ v. AreRegions rank (length variables.now) v.items) }
{
    let mut regions = Vec::new(alloc);
    for item in items {
        let region = read_region(rank, variables, regions.as_slice(), item)?;
        regions.push(region)?;
    }
    Ok(regions)
}
