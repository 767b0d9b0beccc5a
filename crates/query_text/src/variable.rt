//! Reads the variables of a query. `read` uses it. `at` is the location that a refusal names.
ghost use Rattle.std.specs.Prelude.{◌≡◌, ◌≢◌, ◌≤◌, ◌<◌, ◌^◌, length, map, option_map, is_some, All, IfOk};
ghost use Rattle.lists.specs.Numbers.{IsWithin};
ghost use Rattle.query_model.specs.NameForm.{IsName};
ghost use Rattle.query_model.specs.Rules.{IsVariable};
ghost use Rattle.query_model.specs.declared.parts.Variable.{Variable};
ghost use Rattle.serde_json.specs.View.{view};
ghost use Rattle.query_text.specs.Lists.{AreVariables};
ghost use Rattle.query_text.specs.Lookup as lookup;
ghost use Rattle.query_text.specs.Reads.{Gives};
ghost use Rattle.query_text.specs.Walk as walk;

use crate::keys::read_object;
use crate::lookup::variable_named;
use crate::number::read_number;
use crate::text::read_name;
use crate::{Field, Location, Part, QueryFault, QueryRefusal};
use query_model::{Name, Variable};
use serde_json::Value;
use std::alloc::Global;

/// 2^20, the largest absolute value of an end of a range.
const MOST_END: u64 = 1048576;

/// The name of a member. If an earlier variable has it, the refusal is `Repeated`.
fn read_new_name(
    before: &[Variable],
    found: Option<&Value>,
    at: Location,
) -> Result<Name, QueryRefusal>
    ensures walk { result ≡ walk.walk_new_name (λ text. is_some (lookup.variable_named text before.now))
        at (option_map (λ v. view v.now) found.entry) }
    ensures form { IfOk result IsName }
    ensures new { IfOk result (λ name. All (λ (v : Variable). v.name ≢ name) before.now) }
{
    let text = read_name(found, at)?;
    match variable_named(text, before) {
        Some(_) => Err(QueryRefusal::Repeated { location: at }),
        None => Ok(Name::from_bytes(text.as_bytes())),
    }
}

fn read_end(found: Option<&Value>, at: Location) -> Result<i32, QueryRefusal>
    ensures walk { result ≡ walk.walk_number (2 ^ 20) at (option_map (λ v. view v.now) found.entry) }
    ensures within { IfOk result (λ z. IsWithin z (2 ^ 20)) }
{
    let end = read_number(found, MOST_END, at)?;
    Ok(end as i32)
}

/// The variable that comes after these.
#[tactic(auto, unfolding(crate::specs::Walk::walk_variable))]
fn read_variable(before: &[Variable], value: &Value) -> Result<Variable, QueryRefusal>
    requires { length before.now < 8 }
    ensures walk { result ≡ walk.walk_variable before.now (view value.now) }
    ensures rules { IfOk result IsVariable }
    ensures new { IfOk result (λ v. All (λ (w : Variable). w.name ≢ v.name) before.now) }
{
    let i = before.len() as u32 + 1;
    let item_at = Location::item(Part::Variables, i);
    read_object(value, &["name", "from", "to"], item_at)?;
    let name_at = Location::field(Field::VariableName, i);
    let name = read_new_name(before, value.get("name"), name_at)?;
    let from = read_end(value.get("from"), Location::field(Field::VariableFrom, i))?;
    let to = read_end(value.get("to"), Location::field(Field::VariableTo, i))?;
    Ok(Variable { name, from, to })
}

/// The variables of these items.
pub fn read_variables(alloc: Global, items: &[Value]) -> Result<Vec<Variable>, QueryFault>
    requires some { 1 ≤ length items.now }
    requires few { length items.now ≤ 8 }
    ensures walk { Gives (λ v. v.items) (walk.walk_each walk.walk_variable (map view items.now)) result }
    ensures rules { IfOk result (λ v. AreVariables v.items) }
{
    let mut variables = Vec::new(alloc);
    for item in items {
        let variable = read_variable(variables.as_slice(), item)?;
        variables.push(variable)?;
    }
    Ok(variables)
}
