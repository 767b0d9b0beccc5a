//! Reads JSON strings: any text, and names. `variable`, `region` and `constraint` use it. `at` is the location that
//! a refusal names.
ghost use Rattle.std.specs.Prelude.{◌≡◌, ◌≤◌, true, IfOk, option_map};
ghost use Rattle.std.specs.List.{list_all};
ghost use Rattle.query_model.specs.NameForm as form;
ghost use Rattle.serde_json.specs.View.{view};
ghost use Rattle.query_text.specs.Reads.{Shows};
ghost use Rattle.query_text.specs.Walk.{walk_text, walk_name};

use crate::{Location, QueryRefusal};
use serde_json::Value;

/// Whether a byte is an ASCII letter or an underscore.
fn begins_name(b: u8) -> bool
    ensures { result ≡ form.begins_name b }
{
    65 <= b && b <= 90 || 97 <= b && b <= 122 || b == b'_'
}

/// Whether a byte is an ASCII letter, an underscore or a digit.
fn continues_name(b: u8) -> bool
    ensures { result ≡ form.continues_name b }
{
    begins_name(b) || 48 <= b && b <= 57
}

fn all_continue(text: &[u8]) -> bool
    ensures { result ≡ list_all form.continues_name text.now }
{
    text.iter().all(|b| continues_name(*b))
}

/// Whether a text is a name: 1 to 32 ASCII letters, digits and underscores, no digit first.
pub fn is_name(text: &[u8]) -> bool
    ensures { result ≡ form.is_name text.now }
{
    1 <= text.len() && text.len() <= 32 && begins_name(text[0]) && all_continue(text)
}

/// The text of a member, which has to be a string.
pub fn read_text(found: Option<&Value>, at: Location) -> Result<&str, QueryRefusal>
    ensures { Shows (λ s. s.now) (walk_text at (option_map (λ v. view v.now) found.entry)) result }
{
    match found {
        Some(value) => match value.as_str() {
            Some(text) => Ok(text),
            None => Err(QueryRefusal::Shape { location: at }),
        },
        None => Err(QueryRefusal::Shape { location: at }),
    }
}

/// The text of a member, which has to be a name.
pub fn read_name(found: Option<&Value>, at: Location) -> Result<&str, QueryRefusal>
    ensures name { Shows (λ s. s.now) (walk_name at (option_map (λ v. view v.now) found.entry)) result }
    ensures form { IfOk result (λ s. form.is_name s.now ≡ true) }
{
    let text = read_text(found, at)?;
    if is_name(text.as_bytes()) {
        Ok(text)
    } else {
        Err(QueryRefusal::Name { location: at })
    }
}
