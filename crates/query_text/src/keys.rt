//! The keys of JSON objects. `variable`, `region`, `constraint` and `read` use it.
ghost use Rattle.std.specs.Prelude.{◌≡◌, map};
ghost use Rattle.std.specs.List.{list_any};
ghost use Rattle.std.specs.Str.{bytes_eq};
ghost use Rattle.serde_json.specs.View.{view, members_view};
ghost use Rattle.query_text.specs.Json.{has_only};
ghost use Rattle.query_text.specs.Walk.{walk_object};

use crate::{Location, QueryRefusal};
use serde_json::{Map, Value};

fn is_known(key: &str, known: &[&str]) -> bool
    ensures { result ≡ list_any (bytes_eq key.now) (map (λ k. k.now) known.now) }
{
    known.iter().any(|k| key == *k)
}

fn has_only(members: &Map<String, Value>, known: &[&str]) -> bool
    ensures { result ≡ has_only (map (λ k. k.now) known.now) (members_view members.now.entries) }
{
    members.keys().all(|key| is_known(key.as_str(), known))
}

/// Refuses a value that is not an object by `Shape`, and a key that is not `known` by `UnknownKey`.
pub fn read_object(value: &Value, known: &[&str], at: Location) -> Result<(), QueryRefusal>
    ensures { result ≡ walk_object (map (λ k. k.now) known.now) at (view value.now) }
{
    let Some(members) = value.as_object() else {
        return Err(QueryRefusal::Shape { location: at });
    };
    if has_only(members, known) {
        Ok(())
    } else {
        Err(QueryRefusal::UnknownKey { location: at })
    }
}
