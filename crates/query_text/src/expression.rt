//! Reads expressions over the variables of a query. `region` and `constraint` use it. `at` is the location that a
//! refusal names.
ghost use Rattle.std.specs.Prelude.{◌≡◌, ◌≤◌, ◌<◌, length, map, pos, unsigned_abs, IfOk};
ghost use Rattle.query_model.specs.Rules.{IsExpr};
ghost use Rattle.serde_json.specs.View.{view, number_view};
ghost use Rattle.query_text.specs.Reads.{Changes};
ghost use Rattle.query_text.specs.Sums.{IsSum};
ghost use Rattle.query_text.specs.Walk as walk;

use crate::json_array::{items_in, number_and_text_of};
use crate::lookup::variable_named;
use crate::number::read_whole;
use crate::sum::{Sum, constant};
use crate::{Location, QueryRefusal};
use query_model::{Expr, Term, Variable};
use serde_json::{Number, Value};

/// The largest absolute value of a factor.
const MOST_FACTOR: u64 = 1024;

/// 2^31, the largest absolute value of a constant.
const MOST_CONSTANT: u64 = 2147483648;

/// The most items of a sum: eight terms and a constant.
const MOST_ITEMS: usize = 9;

/// Appends a factor times the variable with this name.
#[tactic(auto, unfolding(crate::specs::Walk::walk_term))]
fn read_term(
    sum: &mut Sum,
    variables: &[Variable],
    factor: i32,
    text: &str,
    at: Location,
) -> Result<(), QueryRefusal>
    requires few { length variables.now ≤ 8 }
    requires sum { IsSum (length variables.now) sum.old }
    requires factor { unsigned_abs factor ≤ 1024 }
    ensures walk { Changes (walk.walk_term variables.now at factor text.now sum.old) result sum.new }
    ensures rules { IfOk result (λ _. IsSum (length variables.now) sum.new) }
{
    let Some(var) = variable_named(text, variables) else {
        return Err(QueryRefusal::Unbound { location: at });
    };
    if sum.has_term(var as u8) {
        return Err(QueryRefusal::Repeated { location: at });
    }
    sum.push(Term {
        factor,
        var: var as u8,
    });
    Ok(())
}

/// Sets the constant. A second one is `Repeated`.
#[tactic(auto, unfolding(crate::specs::Walk::walk_constant))]
fn read_constant(
    sum: &mut Sum,
    variables: &[Variable],
    number: &Number,
    at: Location,
) -> Result<(), QueryRefusal>
    requires { IsSum (length variables.now) sum.old }
    ensures walk { Changes (walk.walk_constant at (number_view number.now) sum.old) result sum.new }
    ensures rules { IfOk result (λ _. IsSum (length variables.now) sum.new) }
{
    if sum.constant().is_some() {
        return Err(QueryRefusal::Repeated { location: at });
    }
    sum.set_constant(read_whole(number, MOST_CONSTANT, at)?);
    Ok(())
}

/// Appends the term of a list `[factor, name]`.
#[tactic(auto, unfolding(crate::specs::Walk::walk_product))]
fn read_product(
    sum: &mut Sum,
    variables: &[Variable],
    items: &[Value],
    at: Location,
) -> Result<(), QueryRefusal>
    requires few { length variables.now ≤ 8 }
    requires sum { IsSum (length variables.now) sum.old }
    ensures walk { Changes (walk.walk_product variables.now at sum.old (map view items.now)) result sum.new }
    ensures rules { IfOk result (λ _. IsSum (length variables.now) sum.new) }
{
    let Some((number, text)) = number_and_text_of(items) else {
        return Err(QueryRefusal::Shape { location: at });
    };
    let factor = read_whole(number, MOST_FACTOR, at)?;
    read_term(sum, variables, factor as i32, text, at)
}

/// Adds an item to a sum: a whole number, a name, or a list `[factor, name]`.
#[tactic(auto, unfolding(crate::specs::Walk::walk_item))]
fn read_item(
    sum: &mut Sum,
    variables: &[Variable],
    item: &Value,
    at: Location,
) -> Result<(), QueryRefusal>
    requires few { length variables.now ≤ 8 }
    requires sum { IsSum (length variables.now) sum.old }
    ensures walk { Changes (walk.walk_item variables.now at sum.old (view item.now)) result sum.new }
    ensures rules { IfOk result (λ _. IsSum (length variables.now) sum.new) }
{
    if let Some(number) = item.as_number() {
        return read_constant(sum, variables, number, at);
    }
    if let Some(text) = item.as_str() {
        return read_term(sum, variables, 1, text, at);
    }
    match items_in(item) {
        Some(items) => read_product(sum, variables, items, at),
        None => Err(QueryRefusal::Shape { location: at }),
    }
}

/// The sum of 1 to 9 items.
#[tactic(auto, unfolding(crate::specs::Walk::walk_sum))]
fn read_sum(variables: &[Variable], items: &[Value], at: Location) -> Result<Expr, QueryRefusal>
    requires { length variables.now ≤ 8 }
    ensures walk { result ≡ walk.walk_sum variables.now at (map view items.now) }
    ensures rules { IfOk result (IsExpr (length variables.now)) }
{
    if items.is_empty() {
        return Err(QueryRefusal::Shape { location: at });
    }
    if items.len() > MOST_ITEMS {
        return Err(QueryRefusal::TooMany { location: at });
    }
    let mut sum = Sum::new();
    for item in items {
        read_item(&mut sum, variables, item, at)?;
    }
    Ok(sum.expr())
}

/// A name as an expression.
fn read_variable_alone(
    variables: &[Variable],
    text: &str,
    at: Location,
) -> Result<Expr, QueryRefusal>
    requires { length variables.now ≤ 8 }
    ensures walk { result ≡ walk.walk_variable_alone variables.now at text.now }
    ensures rules { IfOk result (IsExpr (length variables.now)) }
{
    let mut sum = Sum::new();
    read_term(&mut sum, variables, 1, text, at)?;
    Ok(sum.expr())
}

/// An expression: a whole number, a name, or a list of the items of a sum.
#[tactic(auto, unfolding(crate::specs::Walk::walk_expr))]
pub fn read_expr(variables: &[Variable], value: &Value, at: Location) -> Result<Expr, QueryRefusal>
    requires { length variables.now ≤ 8 }
    ensures walk { result ≡ walk.walk_expr variables.now at (view value.now) }
    ensures rules { IfOk result (IsExpr (length variables.now)) }
{
    if let Some(number) = value.as_number() {
        return Ok(constant(read_whole(number, MOST_CONSTANT, at)?));
    }
    if let Some(text) = value.as_str() {
        return read_variable_alone(variables, text, at);
    }
    match items_in(value) {
        Some(items) => read_sum(variables, items, at),
        None => Err(QueryRefusal::Shape { location: at }),
    }
}
