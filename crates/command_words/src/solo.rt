//! The words of `solo ARRAY QUERY`, for `read_words`.
ghost use Rattle.std.specs.Prelude.{◌≡◌, Some, None, true, IfOk, IsErrOf};
ghost use Rattle.clap.specs.Words.{app_of, is_simple_and_free};
ghost use Rattle.command_words.specs.Solo.{solo_app, solo_in};
ghost use Rattle.command_words.specs.Words.{IsWithinLimits, bytes_of_words};
ghost use Rattle.command_words.specs.Commands.{command_of};

use crate::command::Command;
use crate::fault::WordsFault;
use crate::{found, rules};
use std::alloc::{AllocError, Global};

/// The rules of the words after `solo`.
fn solo_rules<'a>(alloc: Global) -> Result<clap::Command<'a>, AllocError>
    ensures rules { IfOk result (λ c. app_of c ≡ solo_app) }
    ensures simple { IfOk result (λ c. is_simple_and_free (app_of c) ≡ true) }
{
    let array = rules::text(alloc, "array");
    let query = rules::text(alloc, "query");
    let command = rules::bare(alloc, "solo").arg(array)?.arg(query)?;
    Ok(command)
}

/// The command that the words after `solo` ask for.
pub fn read_solo<'a>(alloc: Global, words: &'a [String]) -> Result<Command<'a>, WordsFault>
    ensures read { IfOk result (λ c. solo_in (bytes_of_words words.entry.now) ≡ Some (command_of c)) }
    ensures usage { IsErrOf result WordsFault.Usage → solo_in (bytes_of_words words.entry.now) ≡ None }
    ensures limits { IfOk result (λ c. IsWithinLimits (command_of c)) }
{
    let rules = solo_rules(alloc)?;
    let matches = found::matches_in(rules, words)?;
    let array = found::text(&matches, "array");
    let query = found::text(&matches, "query");
    Ok(Command::Solo { array, query })
}
