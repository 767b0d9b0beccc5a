//! Reads whole numbers within limits. `variable`, `expression` and `constraint` use it. `at` is the location that a
//! refusal names.
ghost use Rattle.std.specs.Prelude.{◌≡◌, ◌<◌, ◌≤ℤ◌, ◌^◌, IfSome, IfOk, option_map};
ghost use Rattle.lists.specs.Numbers.{IsWithin};
ghost use Rattle.serde_json.specs.View.{view, number_view};
ghost use Rattle.query_text.specs.Json as json;
ghost use Rattle.query_text.specs.Walk.{walk_whole, walk_number};

use crate::{Location, QueryRefusal};
use serde_json::{Number, Value};

/// The number, if it is whole, fits in 64 bits, and is from `low` to `high`.
pub fn whole_between(low: i64, high: i64, number: &Number) -> Option<i64>
    ensures number { result ≡ json.whole_between low high (number_view number.now) }
    ensures low { IfSome result (λ z. low ≤ℤ z) }
    ensures high { IfSome result (λ z. z ≤ℤ high) }
{
    let Some(z) = number.as_i64() else {
        return None;
    };
    if low <= z && z <= high { Some(z) } else { None }
}

/// The number, if it is whole and from `-bound` to `bound`.
pub fn read_whole(number: &Number, bound: u64, at: Location) -> Result<i64, QueryRefusal>
    requires { bound < 2 ^ 62 }
    ensures number { result ≡ walk_whole bound at (number_view number.now) }
    ensures within { IfOk result (λ z. IsWithin z bound) }
{
    match whole_between(-(bound as i64), bound as i64, number) {
        Some(z) => Ok(z),
        None => Err(QueryRefusal::Number { location: at }),
    }
}

/// The same for a member, which has to be a number.
pub fn read_number(found: Option<&Value>, bound: u64, at: Location) -> Result<i64, QueryRefusal>
    requires { bound < 2 ^ 62 }
    ensures number { result ≡ walk_number bound at (option_map (λ v. view v.now) found.entry) }
    ensures within { IfOk result (λ z. IsWithin z bound) }
{
    match found {
        Some(value) => match value.as_number() {
            Some(number) => read_whole(number, bound, at),
            None => Err(QueryRefusal::Shape { location: at }),
        },
        None => Err(QueryRefusal::Shape { location: at }),
    }
}
