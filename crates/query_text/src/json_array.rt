//! JSON arrays: their items, and the pairs that a query has. `part_items`, `region`, `expression` and `constraint`
//! use it.
ghost use Rattle.std.specs.Prelude.{◌≡◌, map, option_map, option_and_then};
ghost use Rattle.serde_json.specs.View.{view, number_view};
ghost use Rattle.query_text.specs.Json as json;

use serde_json::{Number, Value};

/// The items, if the value is an array.
pub fn items_in(value: &Value) -> Option<&[Value]>
    ensures { option_map (λ v. map view v.now) result ≡ json.items_in (view value.entry.now) }
{
    match value.as_array() {
        Some(items) => Some(items.as_slice()),
        None => None,
    }
}

/// The numbers, if the items are exactly two numbers.
pub fn numbers_of(items: &[Value]) -> Option<(&Number, &Number)>
    ensures { option_map (λ p. (number_view p.0.now, number_view p.1.now)) result
        ≡ option_and_then json.numbers_of (json.two_of (map view items.entry.now)) }
{
    let [first, second] = items else {
        return None;
    };
    match (first.as_number(), second.as_number()) {
        (Some(p), Some(q)) => Some((p, q)),
        _ => None,
    }
}

/// The number and the text, if the items are exactly a number and then a string.
pub fn number_and_text_of(items: &[Value]) -> Option<(&Number, &str)>
    ensures { option_map (λ p. (number_view p.0.now, p.1.now)) result
        ≡ option_and_then json.number_and_text_of (json.two_of (map view items.entry.now)) }
{
    let [first, second] = items else {
        return None;
    };
    match (first.as_number(), second.as_str()) {
        (Some(number), Some(text)) => Some((number, text)),
        _ => None,
    }
}
