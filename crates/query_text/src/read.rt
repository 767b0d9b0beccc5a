//! Reads a query: its parts in their order, and then the limit on its points. `search_run` calls `read_query`.
ghost use Rattle.std.specs.Prelude.{◌≡◌, ℕ, ◌<◌, ◌≤◌, List, length, map, Err, IfOk, OnOk, IfErr};
ghost use Rattle.serde_json.specs.View.{view};
ghost use Rattle.query_text.specs.Lists.{AreVariables, AreRegions};
ghost use Rattle.query_text.specs.Reads.{Gives};
ghost use Rattle.query_text.specs.Walk as walk;
ghost use Rattle.query_text.specs.declared.refusal.QueryRefusal.TheVariants.{TooLong};

use crate::constraint::read_constraints;
use crate::keys::read_object;
use crate::part_items::{read_part, read_variables_part};
use crate::points::point_count;
use crate::region::read_regions;
use crate::variable::read_variables;
use crate::{Location, Part, QueryFault, QueryRefusal};
use query_model::{Query, Region, Variable};
use serde_json::Value;
use std::alloc::Global;

/// 2^20, the largest size of a query file in bytes.
const MOST_QUERY_BYTES: u64 = 1048576;

const MOST_REGIONS: usize = 16;

const MOST_CONSTRAINTS: usize = 64;

/// 2^62.
const MOST_POINTS: u64 = 4611686018427387904;

/// The query with these variables and regions, and with the constraints of these items.
#[tactic(auto, unfolding(crate::specs::Walk::walk_query_over))]
fn read_query_over(
    alloc: Global,
    rank: u8,
    variables: Vec<Variable>,
    regions: Vec<Region>,
    items: &[Value],
) -> Result<Query, QueryFault>
    requires rank { (1 ≤ rank) × (rank ≤ 3) }
    requires variables { AreVariables variables.items }
    requires regions { AreRegions rank (length variables.items) regions.items }
    requires items { length items.now ≤ 64 }
    ensures { Gives (λ q. q)
        (walk.walk_query_over rank variables.items regions.items (map view items.now)) result }
{
    let constraints = read_constraints(alloc, variables.as_slice(), regions.as_slice(), items)?;
    if point_count(variables.as_slice()) > MOST_POINTS {
        return Err(QueryFault::Refused(QueryRefusal::TooLarge));
    }
    Ok(Query::new(rank, variables, regions, constraints))
}

/// The query whose parts have these items.
#[tactic(auto, unfolding(crate::specs::Walk::walk_parts))]
fn read_parts(
    alloc: Global,
    rank: u8,
    variables: &[Value],
    regions: &[Value],
    constraints: &[Value],
) -> Result<Query, QueryFault>
    requires rank { (1 ≤ rank) × (rank ≤ 3) }
    requires variables { (1 ≤ length variables.now) × (length variables.now ≤ 8) }
    requires regions { length regions.now ≤ 16 }
    requires constraints { length constraints.now ≤ 64 }
    ensures { Gives (λ q. q) (walk.walk_parts rank
        (map view variables.now) (map view regions.now) (map view constraints.now)) result }
{
    let variables = read_variables(alloc, variables)?;
    let regions = read_regions(alloc, rank, variables.as_slice(), regions)?;
    read_query_over(alloc, rank, variables, regions, constraints)
}

/// The query of a JSON value.
#[tactic(auto, unfolding(crate::specs::Walk::walk_query))]
fn read_value(alloc: Global, rank: u8, value: &Value) -> Result<Query, QueryFault>
    requires { (1 ≤ rank) × (rank ≤ 3) }
    ensures { Gives (λ q. q) (walk.walk_query rank (view value.now)) result }
{
    read_object(
        value,
        &["variables", "regions", "constraints"],
        Location::query(),
    )?;
    let variables = read_variables_part(value.get("variables"))?;
    let regions_at = Location::part(Part::Regions);
    let regions = read_part(value.get("regions"), MOST_REGIONS, regions_at)?;
    let constraints_at = Location::part(Part::Constraints);
    let constraints = read_part(value.get("constraints"), MOST_CONSTRAINTS, constraints_at)?;
    read_parts(alloc, rank, variables, regions, constraints)
}

/// The query of these bytes, however many they are.
fn read_short_query(alloc: Global, bytes: &[u8], rank: u8) -> Result<Query, QueryFault>
    requires { (1 ≤ rank) × (rank ≤ 3) }
    ensures { Gives (λ q. q) (walk.walk_bytes rank bytes.now) result }
{
    match Value::from_slice(alloc, bytes) {
        Ok(value) => read_value(alloc, rank, &value),
        Err(e) => {
            if e.is_memory() {
                Err(QueryFault::NoMemory)
            } else {
                Err(QueryFault::Refused(QueryRefusal::NotJson))
            }
        }
    }
}

/// Refuses the size of a query file in bytes if it is too large. Such a file need not be read: whatever its bytes are,
/// and whatever the rank of the array, its first refusal is this one.
pub fn check_size(size: u64) -> Result<(), QueryRefusal>
    ensures small { OnOk result (size ≤ walk.most_bytes) }
    ensures large { IfErr result (λ r. (walk.most_bytes < size) × (r ≡ TooLong size)) }
    ensures unread { IfErr result (λ r. (rank : ℕ) (bytes : List ℕ) → length bytes ≡ size → walk.walk rank bytes ≡ Err r) }
{
    if size > MOST_QUERY_BYTES {
        return Err(QueryRefusal::TooLong { size });
    }
    Ok(())
}

/// The query that a file with these bytes holds, for arrays of this rank. `Refused` has the first refusal of the walk
/// over it. `NoMemory` says that memory ran out.
pub fn read_query(alloc: Global, bytes: &[u8], rank: u8) -> Result<Query, QueryFault>
    requires { (1 ≤ rank) × (rank ≤ 3) }
    ensures walk { Gives (λ q. q) (walk.walk rank bytes.now) result }
    ensures rank { IfOk result (λ q. q.rank ≡ rank) }
{
    check_size(bytes.len() as u64)?;
    read_short_query(alloc, bytes, rank)
}
