//! What a word of a query names. `expression`, `variable`, `region` and `constraint` use it.
ghost use Rattle.std.specs.Prelude.{◌≡◌, ◌<◌, length, IfSome};
ghost use Rattle.query_text.specs.Lookup as lookup;

use query_model::{Agg, Compare, Region, Variable};

/// The index, from 0, of the variable with this name.
pub fn variable_named(text: &str, variables: &[Variable]) -> Option<usize>
    ensures number { result ≡ lookup.variable_named text.now variables.now }
    ensures among { IfSome result (λ v. v < length variables.now) }
{
    variables
        .iter()
        .position(|v| v.name.as_bytes() == text.as_bytes())
}

/// The index, from 0, of the region with this name.
pub fn region_named(text: &str, regions: &[Region]) -> Option<usize>
    ensures number { result ≡ lookup.region_named text.now regions.now }
    ensures among { IfSome result (λ r. r < length regions.now) }
{
    regions
        .iter()
        .position(|r| r.name.as_bytes() == text.as_bytes())
}

pub fn agg_named(text: &str) -> Option<Agg>
    ensures { result ≡ lookup.agg_named text.now }
{
    if text == "sum" {
        Some(Agg::Sum)
    } else if text == "min" {
        Some(Agg::Min)
    } else if text == "max" {
        Some(Agg::Max)
    } else if text == "count" {
        Some(Agg::Count)
    } else if text == "avg" {
        Some(Agg::Avg)
    } else {
        None
    }
}

pub fn compare_named(text: &str) -> Option<Compare>
    ensures { result ≡ lookup.compare_named text.now }
{
    if text == "le" {
        Some(Compare::Le)
    } else if text == "lt" {
        Some(Compare::Lt)
    } else if text == "ge" {
        Some(Compare::Ge)
    } else if text == "gt" {
        Some(Compare::Gt)
    } else if text == "eq" {
        Some(Compare::Eq)
    } else {
        None
    }
}
