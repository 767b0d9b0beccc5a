//! The items of the three parts of a query, as JSON values. `read` uses it.
ghost use Rattle.std.specs.Prelude.{◌≡◌, ◌≤◌, length, map, option_map, IfOk};
ghost use Rattle.serde_json.specs.View.{view};
ghost use Rattle.query_text.specs.Reads.{Shows};
ghost use Rattle.query_text.specs.Walk as walk;

use crate::json_array::items_in;
use crate::{Location, Part, QueryRefusal};
use serde_json::Value;

const MOST_VARIABLES: usize = 8;

/// The items of a part, none if it is absent. More than `most` items are `TooMany` at `at`.
#[tactic(auto, unfolding(crate::specs::Walk::walk_part))]
pub fn read_part(found: Option<&Value>, most: usize, at: Location) -> Result<&[Value], QueryRefusal>
    ensures walk { Shows (λ items. map view items.now)
        (walk.walk_part most at (option_map (λ v. view v.now) found.entry)) result }
    ensures few { IfOk result (λ items. length items.now ≤ most) }
{
    let Some(value) = found else {
        return Ok(&[]);
    };
    let Some(items) = items_in(value) else {
        return Err(QueryRefusal::Shape { location: at });
    };
    if items.len() > most {
        Err(QueryRefusal::TooMany { location: at })
    } else {
        Ok(items)
    }
}

/// The items of `variables`: 1 to 8.
#[tactic(auto, unfolding(crate::specs::Walk::walk_variables_part))]
pub fn read_variables_part(found: Option<&Value>) -> Result<&[Value], QueryRefusal>
    ensures walk { Shows (λ items. map view items.now)
        (walk.walk_variables_part (option_map (λ v. view v.now) found.entry)) result }
    ensures some { IfOk result (λ items. 1 ≤ length items.now) }
    ensures few { IfOk result (λ items. length items.now ≤ 8) }
{
    let at = Location::part(Part::Variables);
    let Some(value) = found else {
        return Err(QueryRefusal::Shape { location: at });
    };
    let Some(items) = items_in(value) else {
        return Err(QueryRefusal::Shape { location: at });
    };
    if items.is_empty() {
        Err(QueryRefusal::Shape { location: at })
    } else if items.len() > MOST_VARIABLES {
        Err(QueryRefusal::TooMany { location: at })
    } else {
        Ok(items)
    }
}
